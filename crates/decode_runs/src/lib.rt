// The bodies of type 9, read: words, alternately OFF and ON runs.
//
// A body is checked whole, by `runs_status` or `runs_extent`, before a pixel is stored.
#![tactic(auto)]

ghost use Rattle.std.specs.Prelude.{◌≡◌, length};
ghost use Rattle.refusals.specs.Faults.{status_of};
ghost use Rattle.units.specs.Over.{over, zeros};
ghost use Rattle.units.specs.Rules.{first};
ghost use Rattle.units.specs.Words.{words, words_to_bytes};
ghost use Rattle.codec.specs.Extent.{extent_of};
ghost use Rattle.codec.specs.RunPixels.{run_rules, run_pixels, run_extent};

use codec::Scanline;
use refusals::Fault;
use slices::{clear, put_run, put_run_bytes};
use units::{Words, u16_at, word_count, words_to_bytes};

// The status of a body for a row of p pixels. What is left of p is counted down, so no total can overflow.
#[tactic(auto, using(crate::proofs::Laws::Front::totals))]
pub fn runs_status(body: &[u8], p: usize) -> Result<(), Fault>
    ensures { status_of result ≡ first (run_rules body.now p) }
{
    if word_count(body).0 % 2 == 0 {
        return Err(Fault::WordCount);
    }
    let mut left = p;
    for word in body.chunks_exact(2) {
        let n = u16_at(word, 0) as usize;
        left = left.checked_sub(n).ok_or(Fault::TotalAbove)?;
    }
    if left != 0 {
        return Err(Fault::TotalBelow);
    }
    Ok(())
}

// What a scanline of p pixels takes of the bytes that are left: runs up to the first OFF run with which the row is full.
#[tactic(auto, using(crate::proofs::Laws::Front::extents))]
pub fn runs_extent(rest: &[u8], p: usize) -> Result<Scanline, Fault>
    ensures { extent_of result ≡ run_extent rest.now p }
{
    let mut on = false;
    let mut to_come = p;
    for (i, word) in rest.chunks_exact(2).enumerate() {
        let n = u16_at(word, 0) as usize;
        to_come = to_come.checked_sub(n).ok_or(Fault::TotalAbove)?;
        if !on && to_come == 0 {
            return Ok(Scanline::taken(words_to_bytes(Words(i + 1))));
        }
        on = !on;
    }
    Err(Fault::PastEnd)
}

// Stores the pixels of runs from the start of a row on, as far as it goes.
#[tactic(auto, using(crate::proofs::Laws::Front::painted))]
pub fn paint_runs(body: &[u8], row: &mut [u16])
    ensures { row.new ≡ over (run_pixels 0 (words body.now)) row.old }
{
    let mut level: u16 = 0;
    let mut at = 0;
    for word in body.chunks_exact(2) {
        at = put_run(row, at, u16_at(word, 0) as usize, level);
        level = 1 - level;
    }
}

// The same where each pixel is stored as two bytes, low byte first, and what is left of the row is cleared: a short run is stored as
// eight pixels, whatever stood behind it.
#[tactic(auto, using(crate::proofs::Laws::Front::painted_bytes))]
pub fn paint_run_bytes(body: &[u8], row: &mut [u8])
    ensures { row.new ≡ over (words_to_bytes (run_pixels 0 (words body.now))) (zeros (length row.old)) }
{
    let mut level: u16 = 0;
    let mut at = 0;
    for word in body.chunks_exact(2) {
        at = put_run_bytes(row, at, u16_at(word, 0) as usize, level);
        level = 1 - level;
    }
    let end = row.len();
    clear(&mut row[at..end]);
}
