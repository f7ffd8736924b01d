// The bodies of type 10, read: pairs of words, value then count.
//
// A body is checked whole, by `pairs_status` or `pairs_extent`, before a pixel is stored.
#![tactic(auto)]

ghost use Rattle.std.specs.Prelude.{◌≡◌, length};
ghost use Rattle.refusals.specs.Faults.{status_of};
ghost use Rattle.units.specs.Over.{over, zeros};
ghost use Rattle.units.specs.Rules.{first};
ghost use Rattle.units.specs.Words.{words, words_to_bytes};
ghost use Rattle.codec.specs.Extent.{extent_of};
ghost use Rattle.codec.specs.PairPixels.{pair_rules, pair_pixels, pair_extent};

use codec::Scanline;
use refusals::Fault;
use slices::{clear, put_run, put_run_bytes};
use units::{Bytes, u16_at, word_count};

// The status of a body for a row of p pixels. What is left of p is counted down, so no total can overflow.
#[tactic(auto, using(crate::proofs::Laws::Front::totals))]
pub fn pairs_status(body: &[u8], p: usize) -> Result<(), Fault>
    ensures { status_of result ≡ first (pair_rules body.now p) }
{
    if word_count(body).0 % 2 != 0 {
        return Err(Fault::WordCount);
    }
    let mut left = p;
    for pair in body.chunks_exact(4) {
        let n = u16_at(pair, 2) as usize;
        left = left.checked_sub(n).ok_or(Fault::TotalAbove)?;
    }
    if left != 0 {
        return Err(Fault::TotalBelow);
    }
    Ok(())
}

// What a scanline of p pixels takes of the bytes that are left: pairs up to the first with which the row is full.
#[tactic(auto, using(crate::proofs::Laws::Front::extents))]
pub fn pairs_extent(rest: &[u8], p: usize) -> Result<Scanline, Fault>
    ensures { extent_of result ≡ pair_extent rest.now p }
{
    let mut to_come = p;
    for (i, pair) in rest.chunks_exact(4).enumerate() {
        let count = u16_at(pair, 2) as usize;
        to_come = to_come.checked_sub(count).ok_or(Fault::TotalAbove)?;
        if to_come == 0 {
            return Ok(Scanline::taken(Bytes(4 * (i + 1))));
        }
    }
    Err(Fault::PastEnd)
}

// Stores the pixels of pairs from the start of a row on, as far as it goes.
#[tactic(auto, using(crate::proofs::Laws::Front::painted))]
pub fn paint_pairs(body: &[u8], row: &mut [u16])
    ensures { row.new ≡ over (pair_pixels (words body.now)) row.old }
{
    let mut at = 0;
    for pair in body.chunks_exact(4) {
        let value = u16_at(pair, 0);
        at = put_run(row, at, u16_at(pair, 2) as usize, value);
    }
}

// The same where each pixel is stored as two bytes, low byte first, and what is left of the row is cleared: a short run is stored as
// eight pixels, whatever stood behind it.
#[tactic(auto, using(crate::proofs::Laws::Front::painted_bytes))]
pub fn paint_pair_bytes(body: &[u8], row: &mut [u8])
    ensures { row.new ≡ over (words_to_bytes (pair_pixels (words body.now))) (zeros (length row.old)) }
{
    let mut at = 0;
    for pair in body.chunks_exact(4) {
        let value = u16_at(pair, 0);
        at = put_run_bytes(row, at, u16_at(pair, 2) as usize, value);
    }
    let end = row.len();
    clear(&mut row[at..end]);
}
