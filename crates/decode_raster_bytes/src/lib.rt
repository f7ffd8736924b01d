// The reading of a whole raster into bytes, two for each pixel, low byte first.
//
// It goes along the same chain as the reading into pixels of 16 bits, with the same checks: only the rows are stored another way.
#![tactic(auto)]

ghost use Rattle.std.specs.Prelude.{◌≡◌, false, ◌≤◌, ◌<◌, length};
ghost use Rattle.units.specs.Counts.{word_bytes};
ghost use Rattle.limits.specs.Limits.{most_lines};
ghost use Rattle.layout.specs.Chain.{raster_of};
ghost use Rattle.layout.specs.PixelBytes.{bytes_reading, pixel_bytes_after, byte_marks_after};
ghost use Rattle.decode_raster.specs.Answer.{raster_numbers};
ghost use Rattle.decode_raster.specs.Laws.Answer.{as_bytes, Fits, ChainAt, Stepped};
ghost use Rattle.decode_raster.specs.Laws.Lines.{LinesAt, Done};

use decode_raster::{Chain, Reading, raster_rejection};
use decode_scanline::read_scanline_bytes;
use layout::{RasterLayout, one_if_good, sheet_layout};
use numbering::number_line;
use refusals::{Fault, Rejection, mark};
use scan_scanline::{body_start, is_regular, regular_size};
use units::{Bytes, Words, bytes_to_words, widen_words, words_to_bytes};

// Reads the raster of a file: pixels as two bytes each, row after row, and a status for each scanline.
pub fn read_raster_bytes(
    file: &[u8],
    pixels: &mut [u8],
    marks: &mut [u8],
) -> Result<Reading, Rejection>
    ensures result_value { raster_numbers result ≡ bytes_reading file.now pixels.old marks.old }
    ensures pixels_after { pixels.new ≡ pixel_bytes_after file.now pixels.old marks.old }
    ensures marks_after { marks.new ≡ byte_marks_after file.now pixels.old marks.old }
{
    let room = bytes_to_words(Bytes(pixels.len())).0;
    raster_rejection(file, room, marks.len())?;
    let sheet = sheet_layout(file);
    let chain = read_lines(sheet, pixels, marks);
    Ok(chain.reading(sheet.nol))
}

// Reads the scanlines one after the other, each into its own part of the bytes, the first regular ones in a loop of their own. After a
// lost one the rest is blank, at once: of many rows that takes less time than row after row.
fn read_lines(raster: RasterLayout, pixels: &mut [u8], marks: &mut [u8]) -> Chain
    requires { Fits (raster_of raster) (word_bytes raster.ppl) (length pixels.old) (length marks.old) }
    ensures { Done (raster_of raster.entry) (as_bytes raster.entry.ppl) pixels.old marks.old pixels.new marks.new result }
{
    let width = words_to_bytes(Words(raster.ppl as usize)).0;
    let n = raster.nol as usize;
    let end = n * width;
    let mut chain = read_regular(raster, pixels, marks);
    let first = chain.good as usize;
    for k in first..n {
        let from = k * width;
        if chain.lost {
            pixels[from..end].fill(0);
            marks[k..n].fill(mark(Err(Fault::Unreached)));
            return chain;
        }
        let to = from + width;
        chain = read_line(raster, chain, k, &mut pixels[from..to]);
        marks[k] = mark(chain.status);
    }
    chain
}

// Reads the first scanlines of a raster of bytes as long as they are regular, in a loop of its own: few pixels a line then cost little
// beside storing them. Up to where line numbers roll over, each is the line's own less the same count, so that no line has to ask for it.
// Of another data type it reads none. The outer loop goes from run to run, each as long as where it starts has it, so that it is no `for`.
fn read_regular(raster: RasterLayout, pixels: &mut [u8], marks: &mut [u8]) -> Chain
    requires { Fits (raster_of raster) (word_bytes raster.ppl) (length pixels.old) (length marks.old) }
    ensures { LinesAt (raster_of raster.entry) (as_bytes raster.entry.ppl) pixels.old marks.old pixels.new marks.new result result.good }
{
    let p = raster.ppl as usize;
    let width = words_to_bytes(Words(p)).0;
    let size = regular_size(raster.scn, raster.ppl);
    let start = body_start(raster.scn);
    let n = if raster.dtc == 2 {
        raster.nol as usize
    } else {
        0
    };
    let mut at = raster.start;
    let mut rollover = 0;
    let mut first = 0;
    while first < n {
        let numbered = number_line(rollover, first, &raster.bytes[at..]);
        rollover = numbered.rollover;
        let before = first + 1 - numbered.number as usize;
        let end = n.min(before + 65535);
        for k in first..end {
            if !is_regular(
                raster.scn,
                (k + 1 - before) as u16,
                size,
                &raster.bytes[at..],
            ) {
                return Chain::good(at, k as u32, rollover);
            }
            let from = k * width;
            let to = from + width;
            let a = at + start;
            let b = a + p;
            widen_words(&raster.bytes[a..b], &mut pixels[from..to]);
            marks[k] = 0;
            at += size.0;
        }
        first = end;
    }
    Chain::good(at, first as u32, rollover)
}

// Reads scanline k, counted from 0, which the chain has come to.
fn read_line(raster: RasterLayout, chain: Chain, k: usize, row: &mut [u8]) -> Chain
    requires start_in_bounds { raster.start ≤ length raster.bytes.now }
    requires nol_le_most_lines { raster.nol ≤ most_lines }
    requires chain_at { ChainAt (raster_of raster) k chain }
    requires lost_value { chain.lost ≡ false }
    requires k_lt_nol { k < raster.nol }
    requires row_len { length row.old ≡ word_bytes raster.ppl }
    ensures { Stepped (raster_of raster.entry) (as_bytes raster.entry.ppl) k result row.new }
{
    let at = chain.at;
    let rest = &raster.bytes[at..];
    let numbered = number_line(chain.rollover, k, rest);
    match read_scanline_bytes(raster.scn, raster.dtc, numbered.number, rest, row) {
        Ok(line) => Chain {
            at: at + line.used.0,
            lost: false,
            good: chain.good + one_if_good(mark(line.body)),
            status: line.body,
            rollover: numbered.rollover,
        },
        Err(fault) => Chain {
            at,
            lost: true,
            good: chain.good,
            status: Err(fault),
            rollover: numbered.rollover,
        },
    }
}
