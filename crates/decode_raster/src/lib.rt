// The reading of a whole raster into lent buffers.
//
// A rejected call changes nothing. Otherwise every row is stored in its own place, every scanline has its status, the
// paper's mark, and what lies past the last row or status is left as it was.
#![tactic(auto)]

ghost use Rattle.std.specs.Prelude.{◌≡◌, ◌≤◌, ◌<◌, Ok, length};
ghost use Rattle.refusals.specs.Rejections.{rejected_by};
ghost use Rattle.limits.specs.Limits.{most_lines};
ghost use Rattle.layout.specs.Chain.{raster_of};
ghost use Rattle.layout.specs.Reading.{raster_rejection, raster_reading, pixels_after, marks_after};
ghost use Rattle.decode_raster.specs.Answer.{raster_numbers, chain_numbers, good_chain};
ghost use Rattle.decode_raster.specs.Laws.Answer.{as_pixels, Fits, ChainAt, Stepped};
ghost use Rattle.decode_raster.specs.Laws.Lines.{Done};

use decode_scanline::read_scanline;
use header::rejection_to_22;
use layout::{RasterLayout, is_whole, one_if_good, sheet_layout};
use numbering::number_line;
use refusals::{Fault, Rejection, mark};

// What reading a raster answers: whether every scanline is good; how many are; and the byte after the last one, or the first byte of the
// one that is lost.
#[derive(Clone, Copy, Debug, PartialEq, Eq)]
pub struct Reading {
    pub whole: bool,
    pub good: u32,
    pub end: usize,
}

// Where the chain of scanlines stands: the next one's start, whether one before it is lost, how many are good, the status of the last one,
// and past line 65,536 its line number. `lost` stands beside `at` since that counts either way: where the chain ends, the lost one starts.
#[derive(Clone, Copy)]
pub struct Chain {
    pub at: usize,
    pub lost: bool,
    pub good: u32,
    pub status: Result<(), Fault>,
    pub rollover: u16,
}

impl Chain {
    // A chain of k scanlines that are all good.
    pub fn good(at: usize, k: u32, rollover: u16) -> Chain
        ensures { result ≡ good_chain at k rollover }
    {
        Chain {
            at,
            lost: false,
            good: k,
            status: Ok(()),
            rollover,
        }
    }

    // What is answered at the end of a chain of so many scanlines.
    pub fn reading(self, nol: u32) -> Reading
        ensures { raster_numbers (Ok result) ≡ chain_numbers self nol }
    {
        Reading {
            whole: is_whole(self.good, nol),
            good: self.good,
            end: self.at,
        }
    }
}

// Reads the raster of a file: pixels of 16 bits, row after row, and a status for each scanline.
pub fn read_raster(file: &[u8], pixels: &mut [u16], marks: &mut [u8]) -> Result<Reading, Rejection>
    ensures result_value { raster_numbers result ≡ raster_reading file.now pixels.old marks.old }
    ensures pixels_after { pixels.new ≡ pixels_after file.now pixels.old marks.old }
    ensures marks_after { marks.new ≡ marks_after file.now pixels.old marks.old }
{
    raster_rejection(file, pixels.len(), marks.len())?;
    let sheet = sheet_layout(file);
    let chain = read_lines(sheet, pixels, marks);
    Ok(chain.reading(sheet.nol))
}

// The rejection of a call: the file's, or 23 or 24 where a buffer is too short.
pub fn raster_rejection(file: &[u8], pixels: usize, marks: usize) -> Result<(), Rejection>
    ensures { rejected_by result ≡ raster_rejection file.now pixels marks }
{
    rejection_to_22(file)?;
    let sheet = sheet_layout(file);
    let ppl = sheet.ppl as usize;
    let nol = sheet.nol as usize;
    if pixels < nol * ppl {
        return Err(Rejection::PixelRoom);
    }
    if marks < nol {
        return Err(Rejection::MarkRoom);
    }
    Ok(())
}

// Reads the scanlines one after the other, each into its own part of the pixels.
fn read_lines(raster: RasterLayout, pixels: &mut [u16], marks: &mut [u8]) -> Chain
    requires { Fits (raster_of raster) raster.ppl (length pixels.old) (length marks.old) }
    ensures { Done (raster_of raster.entry) (as_pixels raster.entry.ppl) pixels.old marks.old pixels.new marks.new result }
{
    let p = raster.ppl as usize;
    let n = raster.nol as usize;
    let mut chain = Chain::good(raster.start, 0, 0);
    for k in 0..n {
        let from = k * p;
        let to = from + p;
        chain = read_line(raster, chain, k, &mut pixels[from..to]);
        marks[k] = mark(chain.status);
    }
    chain
}

// Reads scanline k, counted from 0, where the chain has come to it. After a lost one only zeros are stored.
fn read_line(raster: RasterLayout, chain: Chain, k: usize, row: &mut [u16]) -> Chain
    requires start_in_bounds { raster.start ≤ length raster.bytes.now }
    requires nol_le_most_lines { raster.nol ≤ most_lines }
    requires chain_at { ChainAt (raster_of raster) k chain }
    requires k_lt_nol { k < raster.nol }
    requires row_len { length row.old ≡ raster.ppl }
    ensures { Stepped (raster_of raster.entry) (as_pixels raster.entry.ppl) k result row.new }
{
    if chain.lost {
        row.fill(0);
        return Chain {
            status: Err(Fault::Unreached),
            ..chain
        };
    }
    let at = chain.at;
    let rest = &raster.bytes[at..];
    let numbered = number_line(chain.rollover, k, rest);
    match read_scanline(raster.scn, raster.dtc, numbered.number, rest, row) {
        Ok(line) => Chain {
            at: at + line.used.0,
            lost: false,
            good: chain.good + one_if_good(mark(line.body)),
            status: line.body,
            rollover: numbered.rollover,
        },
        Err(fault) => Chain {
            at,
            lost: true,
            good: chain.good,
            status: Err(fault),
            rollover: numbered.rollover,
        },
    }
}
