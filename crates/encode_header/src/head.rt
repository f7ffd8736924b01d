// The header of a file: two blocks, or three with a color table.
ghost use Rattle.std.specs.Prelude.{◌≡◌, ◌-◌, length};
ghost use Rattle.units.specs.Counts.{words_of_blocks};
ghost use Rattle.encode_header.specs.Header.{ctv_of, blocks_of, header_bytes, header_size};
ghost use Rattle.encode_header.specs.Job.{picture_of, header_over};
ghost use Rattle.encode_header.specs.Laws.Header.{with_start, with_sizes, with_floats, with_fields};

use crate::Job;
use slices::{clear, copy};
use units::{Blocks, Bytes, blocks_to_bytes, blocks_to_words, put_byte, put_long, put_word};

// Puts the header's bytes at the start of the output where they fit, and answers how many there are.
pub fn write_header(job: Job, table: &[u8], out: &mut [u8]) -> Bytes
    ensures result_value { result.0 ≡ length (header_bytes (picture_of job table.now)) }
    ensures out_after { out.new ≡ header_over (picture_of job table.now) out.old }
{
    let size = header_size(table).0;
    if out.len() < size {
        return Bytes(size);
    }
    clear(&mut out[..size]);
    copy(table, &mut out[768..]);
    put_fields(job, words_to_follow(table), ctv_of(table), out);
    Bytes(size)
}

// The length of a header: two blocks, or a table behind what stands before it.
pub fn header_size(table: &[u8]) -> Bytes
    ensures { result.0 ≡ (header_size table.now).0 }
{
    if table.is_empty() {
        return blocks_to_bytes(header_blocks(table));
    }
    Bytes(768 + table.len())
}

// WTF: the header's words but for HTC and WTF itself.
fn words_to_follow(table: &[u8]) -> u16
    ensures { result ≡ (words_of_blocks (blocks_of table.now)).0 - 2 }
{
    (blocks_to_words(header_blocks(table)).0 - 2) as u16
}

// Two, or three with a table.
fn header_blocks(table: &[u8]) -> Blocks
    ensures { result.0 ≡ (blocks_of table.now).0 }
{
    if table.is_empty() {
        Blocks(2)
    } else {
        Blocks(3)
    }
}

// CTV: 1 where there is a table.
fn ctv_of(table: &[u8]) -> u16
    ensures { result ≡ ctv_of table.now }
{
    if table.is_empty() { 0 } else { 1 }
}

// The fields before the table, over zeros: only what is not 0 is stored.
#[tactic(auto, unfolding(crate::specs::Laws::Header::with_fields))]
fn put_fields(job: Job, wtf: u16, ctv: u16, out: &mut [u8])
    ensures { out.new ≡ with_fields job wtf ctv out.old }
{
    put_start(job, wtf, ctv, out);
    put_sizes(job, out);
    put_floats(out);
}

// HTC, WTF, DTC, VER and CTV
#[tactic(auto, using(units::proofs::Laws::Stores::high_byte), unfolding(crate::specs::Laws::Header::with_start))]
fn put_start(job: Job, wtf: u16, ctv: u16, out: &mut [u8])
    ensures { out.new ≡ with_start job wtf ctv out.old }
{
    put_word(out, 0, 0x0908);
    put_word(out, 2, wtf);
    put_word(out, 4, job.dtc);
    put_byte(out, 511, 3);
    put_word(out, 532, ctv);
}

// PPL, NOL, DRS, SLO and SCN
#[tactic(auto, using(units::proofs::Laws::Stores::high_byte), unfolding(crate::specs::Laws::Header::with_sizes))]
fn put_sizes(job: Job, out: &mut [u8])
    ensures { out.new ≡ with_sizes job out.old }
{
    put_long(out, 184, job.ppl);
    put_long(out, 188, job.nol);
    put_word(out, 192, job.drs);
    put_byte(out, 194, job.slo);
    put_byte(out, 195, job.scn);
}

// 1.0 on the diagonal of TRN, and as ASR: the last two of a float's eight bytes
#[tactic(auto, unfolding(crate::specs::Laws::Header::with_floats))]
fn put_floats(out: &mut [u8])
    ensures { out.new ≡ with_floats out.old }
{
    put_word(out, 62, 0x3ff0);
    put_word(out, 102, 0x3ff0);
    put_word(out, 142, 0x3ff0);
    put_word(out, 182, 0x3ff0);
    put_word(out, 526, 0x3ff0);
}
