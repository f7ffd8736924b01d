// The writer of rasters: the bytes of a file are fixed by the picture that it is given.
//
// A rejected call changes nothing. Otherwise the file's bytes are put at the start of the output, and what lies behind
// them is left as it was. All lengths are known before a byte is stored.
#![tactic(auto)]

mod given;

ghost use Rattle.std.specs.Prelude.{◌≡◌, ◌+◌, ◌<◌, ◌≤◌, [], ◌∷◌, ◌++◌, length, drop};
ghost use Rattle.units.specs.Counts.{n_blocks, bytes_of_blocks};
ghost use Rattle.units.specs.Over.{over};
ghost use Rattle.units.specs.Rules.{first};
ghost use Rattle.units.specs.Words.{words_to_bytes};
ghost use Rattle.encode_header.specs.Picture.{row_at};
ghost use Rattle.encode_raster.specs.File.{line_bytes, lines_of};
ghost use Rattle.encode_answer.specs.Answer.{write_numbers};
ghost use Rattle.encode_answer.specs.Sizes.{answer_by};
ghost use Rattle.encode_raster.specs.Writing.{writing, out_after};
ghost use Rattle.encode_raster.specs.Answer.{picture};
ghost use Rattle.encode_raster.specs.Laws.Answer.{bare, head_size, plan_rules, Within, Measured, LineFits, LinesFit};

use encode_answer::{answer_by_size, or_long};
use encode_body::{body_size, highest, write_body};
use encode_header::{Job, header_size, write_header};
use given::{any_above, field_rejection};
use refusals::Rejection;
use units::{Bytes, bytes_to_words, store_words};

// The bytes of all scanlines, and whether a body is too long for a scanline header to count. Both are told, and no `Result`: without
// scanline headers a long body is no rejection.
#[derive(Clone, Copy, Debug, PartialEq, Eq)]
pub struct Measure {
    pub size: Bytes,
    pub long: bool,
}

// The fields of a sheet and its pixels, within the limits.
#[derive(Clone, Copy)]
struct Sheet<'a> {
    job: Job,
    pixels: &'a [u16],
    ghost within: { Within job pixels.now },
}

// Writes a file: the fields by the format's names, a color table of 0 or 768 bytes, and the pixels row after row. Answers its length.
pub fn write_raster(
    dtc: u32,
    ppl: u32,
    nol: u32,
    slo: u32,
    scn: u32,
    drs: u16,
    table: &[u8],
    pixels: &[u16],
    out: &mut [u8],
) -> Result<Bytes, Rejection>
    ensures result_value { write_numbers result ≡ writing (picture dtc ppl nol slo scn drs table.now pixels.now) (length out.old) }
    ensures out_after { out.new ≡ out_after (picture dtc ppl nol slo scn drs table.now pixels.now) out.old }
{
    field_rejection(dtc, ppl, nol, slo, scn, table.len(), pixels.len())?;
    let job = Job {
        dtc: dtc as u16,
        ppl,
        nol,
        slo: slo as u8,
        scn: scn as u8,
        drs,
    };
    let sheet = Sheet { job, pixels };
    let size = sheet.plan(header_size(table), out.len())?;
    let start = write_header(job, table, out).0;
    sheet.write_lines(&mut out[start..]);
    Ok(size)
}

impl Sheet<'_> {
    // The length of the file, or 26, 27, 10 or 28, for a header of `head` bytes and an output of `room`.
    fn plan(&self, head: Bytes, room: usize) -> Result<Bytes, Rejection>
        requires { head.0 ≤ (bytes_of_blocks (n_blocks 3)).0 }
        ensures { write_numbers result ≡ answer_by (first (plan_rules self.now.job self.now.pixels.now head.0 room)) (head.0 + length (lines_of (bare self.now.job self.now.pixels.now) self.now.job.nol)) }
    {
        let end = (self.job.nol as usize) * (self.job.ppl as usize);
        if any_above(&self.pixels[..end], highest(self.job.dtc)) {
            return Err(Rejection::PixelTooHigh);
        }
        let lines = self.measure();
        answer_by_size(self.job.scn, lines.long, head.0 + lines.size.0, room)
    }

    // Measures the scanlines before one is written.
    fn measure(&self) -> Measure
        ensures { Measured (bare self.now.job self.now.pixels.now) self.now.job.nol result }
    {
        let head = line_head(self.job.scn).0;
        let mut size = 0;
        let mut long = false;
        for k in 0..self.job.nol as usize {
            let body = body_size(self.job.dtc, self.job.scn, self.row(k));
            size += head + body.0;
            long = or_long(long, bytes_to_words(body));
        }
        Measure {
            size: Bytes(size),
            long,
        }
    }

    // Writes the scanlines one after the other. Past 65,535 the line number wraps to 0.
    fn write_lines(&self, out: &mut [u8])
        requires { LinesFit (bare self.now.job self.now.pixels.now) self.now.job.nol out.old }
        ensures { out.new ≡ lines_of (bare self.now.job self.now.pixels.now) self.now.job.nol ++ drop (length (lines_of (bare self.now.job self.now.pixels.now) self.now.job.nol)) out.old }
    {
        let mut at = 0;
        let mut number: u16 = 1;
        for k in 0..self.job.nol as usize {
            at += write_line(self.job, number, self.row(k), &mut out[at..]).0;
            number = number.wrapping_add(1);
        }
    }

    // The pixels of row k.
    fn row(&self, k: usize) -> &[u16]
        requires { k < self.now.job.nol }
        ensures { result.now ≡ row_at (bare self.now.job self.now.pixels.now) k }
    {
        let p = self.job.ppl as usize;
        let from = k * p;
        &self.pixels[from..from + p]
    }
}

// The bytes of a scanline header, where there are any.
fn line_head(scn: u8) -> Bytes
    ensures { result.0 ≡ head_size scn }
{
    if scn == 1 { Bytes(8) } else { Bytes(0) }
}

// Writes one scanline: its body, and before it a header where there are headers. Answers its length.
fn write_line(job: Job, number: u16, row: &[u16], out: &mut [u8]) -> Bytes
    requires { LineFits job.dtc job.scn number row.now out.old }
    ensures result_value { result.0 ≡ length (line_bytes job.dtc job.scn number row.now) }
    ensures out_after { out.new ≡ line_bytes job.dtc job.scn number row.now ++ drop (length (line_bytes job.dtc job.scn number row.now)) out.old }
{
    if job.scn != 1 {
        return write_body(job.dtc, job.scn, row, out);
    }
    let body = write_body(job.dtc, job.scn, row, &mut out[8..]);
    let follow = bytes_to_words(body).0 + 2;
    put_line_header(follow as u16, number, out);
    Bytes(8 + body.0)
}

// A scanline header: the identifier, the words to follow, the line number and the pixel offset 0.
fn put_line_header(follow: u16, number: u16, out: &mut [u8])
    ensures { out.new ≡ over (words_to_bytes (0x5900 ∷ (follow ∷ (number ∷ (0 ∷ []))))) out.old }
{
    let words = [0x5900, follow, number, 0];
    store_words(&words, out);
}
