// The bytes of scanlines' bodies, by data type: the one place of this direction that knows the data types, with a module
// for each.
//
// A body's bytes are put over the start of the buffer that is lent, as far as that goes, and the answer is how many bytes
// the body has. Lent no byte a writer only counts, so that a length is known before a byte is stored.
#![tactic(auto)]

mod byte_body;
mod measuring;
mod pair_body;
mod run_body;
mod word_body;

ghost use Rattle.std.specs.Prelude.{◌≡◌, ◌+◌, ◌<◌, ◌^◌, length};
ghost use Rattle.std.proofs.lemmas.List.Edits.{sets};
ghost use Rattle.units.specs.Counts.{word_bytes};
ghost use Rattle.units.specs.Over.{over};
ghost use Rattle.units.specs.Words.{two_bytes};
ghost use Rattle.codec.specs.Table.{codec_of, body_bytes};

use byte_body::write_bytes;
use encode_packed::write_packed;
use pair_body::write_pairs;
use run_body::write_runs;
use units::{Bytes, Words, put_word, words_to_bytes};
use word_body::write_words;

// Puts the body of a row over the start of the output. Any other data type has no bytes.
#[tactic(auto, using(codec::proofs::Laws::Table::no_codec_lem, units::proofs::Laws::Over::over_nil), unfolding(codec::specs::Table::codec_of))]
pub fn write_body(dtc: u16, scn: u8, row: &[u16], out: &mut [u8]) -> Bytes
    ensures result_value { result.0 ≡ length (body_bytes dtc scn row.now) }
    ensures out_after { out.new ≡ over (body_bytes dtc scn row.now) out.old }
{
    match dtc {
        1 => write_packed(row, out),
        2 => write_bytes(scn, row, out),
        3 => write_words(row, out),
        9 => write_runs(row, out),
        10 => write_pairs(row, out),
        _ => Bytes(0),
    }
}

// How many bytes the body of a row has.
pub fn body_size(dtc: u16, scn: u8, row: &[u16]) -> Bytes
    ensures { result.0 ≡ length (body_bytes dtc scn row.now) }
{
    let mut none = [0u8; 0];
    write_body(dtc, scn, row, &mut none)
}

// The highest pixel that can be written.
#[tactic(auto, using(codec::proofs::Laws::Table::no_codec_lem), unfolding(codec::specs::Table::codec_of))]
pub fn highest(dtc: u16) -> u16
    ensures { result ≡ (codec_of dtc).highest }
{
    match dtc {
        1 => 1,
        2 => 255,
        3 => 65535,
        9 => 1,
        10 => 65535,
        _ => 0,
    }
}

// Stores a word and answers the place after it. The buffer and the place stay two parameters: a struct that holds a `&mut` is no
// plainer, as each method would ensure that it stays the same one.
fn put_next(out: &mut [u8], at: usize, w: u16) -> usize
    requires { at + word_bytes 1 < 2 ^ 64 }
    ensures value { result ≡ at + word_bytes 1 }
    ensures out_after { out.new ≡ sets out.old at (two_bytes w) }
{
    put_word(out, at, w);
    at + words_to_bytes(Words(1)).0
}
