// Type 9: words, alternately OFF and ON runs.
ghost use Rattle.std.specs.Prelude.{◌≡◌, ◌+◌, ◌<◌, ◌^◌, length};
ghost use Rattle.std.proofs.lemmas.List.Edits.{sets};
ghost use Rattle.units.specs.Counts.{word_bytes};
ghost use Rattle.units.specs.Over.{over};
ghost use Rattle.units.specs.Words.{words_to_bytes};
ghost use Rattle.cutting.specs.Pieces.{level_pieces};
ghost use Rattle.codec.specs.RunPixels.{run_body};

use crate::measuring::run_length;
use crate::put_next;
use units::Bytes;

// Writes the runs of a row of 0 and 1.
pub fn write_runs(row: &[u16], out: &mut [u8]) -> Bytes
    ensures result_value { result.0 ≡ length (run_body row.now) }
    ensures out_after { out.new ≡ over (run_body row.now) out.old }
{
    let first = run_length(row, 0);
    let mut at = put_run(out, 0, first);
    // the pixels after the first OFF run, which can be empty, and the level of the run that they start with
    let mut rest = &row[first..];
    let mut level: u16 = 1;
    while !rest.is_empty() {
        let n = 1 + run_length(&rest[1..], level);
        at = put_run(out, at, n);
        rest = &rest[n..];
        level = 1 - level;
    }
    if level == 1 {
        return Bytes(at);
    }
    // after an ON run, an empty OFF run ends the line
    Bytes(put_next(out, at, 0))
}

// One run of n pixels: above 32,767 a full piece, an empty run of the other level, then the pieces of the rest; up to 32,767 one
// piece (docs/CUTTING.md). Answers the place after it.
fn put_run(out: &mut [u8], at: usize, n: usize) -> usize
    requires { at + word_bytes (length (level_pieces n)) < 2 ^ 64 }
    ensures value { result ≡ at + word_bytes (length (level_pieces n)) }
    ensures out_after { out.new ≡ sets out.old at (words_to_bytes (level_pieces n)) }
{
    let mut to = at;
    let mut left = n;
    while 32767 < left {
        to = put_next(out, to, 32767);
        to = put_next(out, to, 0);
        left -= 32767;
    }
    put_next(out, to, left as u16)
}
