// The body of a scanline, by data type. A data type that has no codec has the status 16, and no pixel of it is stored.
ghost use Rattle.std.specs.Prelude.{◌≡◌, length};
ghost use Rattle.refusals.specs.Faults.{status_of};
ghost use Rattle.units.specs.Over.{over, zeros};
ghost use Rattle.units.specs.Rules.{first};
ghost use Rattle.units.specs.Words.{word_count, words_to_bytes};
ghost use Rattle.codec.specs.Extent.{extent_of};
ghost use Rattle.codec.specs.Table.{body_rules, body_pixels, body_extent};

use crate::byte_pixels::{bytes_extent, bytes_status, paint_byte_bytes};
use crate::word_pixels::{paint_word_bytes, words_extent, words_status};
use codec::Scanline;
use decode_packed::{packed_extent, packed_status, paint_packed, paint_packed_bytes};
use decode_pairs::{paint_pair_bytes, paint_pairs, pairs_extent, pairs_status};
use decode_runs::{paint_run_bytes, paint_runs, runs_extent, runs_status};
use refusals::Fault;
use slices::{clear, widen};
use units::load_words;

// The status of a body of known length, for a row of p pixels.
pub fn body_status(dtc: u16, body: &[u8], p: usize) -> Result<(), Fault>
    ensures { status_of result ≡ first (body_rules dtc body.now p) }
{
    match dtc {
        1 => packed_status(body, p),
        2 => bytes_status(body, p),
        3 => words_status(body, p),
        9 => runs_status(body, p),
        10 => pairs_status(body, p),
        _ => Err(Fault::DataType),
    }
}

// What a scanline of p pixels without a header takes of the bytes that are left.
pub fn body_extent(dtc: u16, rest: &[u8], p: usize) -> Result<Scanline, Fault>
    ensures { extent_of result ≡ body_extent dtc rest.now p }
{
    match dtc {
        1 => packed_extent(rest, p),
        2 => bytes_extent(rest, p),
        3 => words_extent(rest, p),
        9 => runs_extent(rest, p),
        10 => pairs_extent(rest, p),
        _ => Err(Fault::DataType), // the line is lost
    }
}

// Stores a body's pixels from the start of a row on, as far as both go.
pub fn paint_body(dtc: u16, body: &[u8], row: &mut [u16])
    ensures { row.new ≡ over (body_pixels dtc body.now (length row.old)) row.old }
{
    match dtc {
        1 => paint_packed(body, row),
        2 => widen(body, row),
        3 => load_words(body, row),
        9 => paint_runs(body, row),
        10 => paint_pairs(body, row),
        _ => {}
    }
}

// The same where each pixel is stored as two bytes, low byte first, and what is left of the row is cleared.
pub fn paint_body_bytes(dtc: u16, body: &[u8], row: &mut [u8])
    ensures { row.new ≡ over (words_to_bytes (body_pixels dtc body.now (word_count row.old).0)) (zeros (length row.old)) }
{
    match dtc {
        1 => paint_packed_bytes(body, row),
        2 => paint_byte_bytes(body, row),
        3 => paint_word_bytes(body, row),
        9 => paint_run_bytes(body, row),
        10 => paint_pair_bytes(body, row),
        _ => clear(row),
    }
}
