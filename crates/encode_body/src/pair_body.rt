// Type 10: pairs of words, value then count.
ghost use Rattle.std.specs.Prelude.{◌≡◌, ◌+◌, ◌≤◌, ◌<◌, ◌^◌, length, drop};
ghost use Rattle.std.proofs.lemmas.List.Edits.{sets};
ghost use Rattle.units.specs.Counts.{word_bytes};
ghost use Rattle.units.specs.Over.{over};
ghost use Rattle.units.specs.Words.{words_to_bytes};
ghost use Rattle.cutting.specs.Pieces.{value_pieces};
ghost use Rattle.codec.specs.Leading.{leading};
ghost use Rattle.codec.specs.PairPixels.{pair_body};

use crate::put_next;
use units::Bytes;

// Writes the runs of equal pixels of a row. The loop goes by the place where a run starts: with what is left of the row in its place, and
// `run_length` of it, rows of very short runs take a tenth more time.
pub fn write_pairs(row: &[u16], out: &mut [u8]) -> Bytes
    ensures result_value { result.0 ≡ length (pair_body row.now) }
    ensures out_after { out.new ≡ over (pair_body row.now) out.old }
{
    let mut at = 0;
    let mut i = 0;
    while i < row.len() {
        let v = row[i];
        let end = run_end(row, i + 1, v);
        at = put_pairs(out, at, v, end - i);
        i = end;
    }
    Bytes(at)
}

// Where the pixels of value `v` that start at `from` end.
fn run_end(row: &[u16], from: usize, v: u16) -> usize
    requires { from ≤ length row.now }
    ensures { result ≡ from + leading v (drop from row.now) }
{
    for i in from..row.len() {
        if row[i] != v {
            return i;
        }
    }
    row.len()
}

// One run of n pixels: above 32,767 a full piece, then the pieces of the rest; up to 32,767 one piece. Each has the value before it
// (docs/CUTTING.md). Answers the place after it. One function with `put_run` is no plainer: only the loop's condition is the same.
fn put_pairs(out: &mut [u8], at: usize, v: u16, n: usize) -> usize
    requires { at + word_bytes (length (value_pieces v n)) < 2 ^ 64 }
    ensures value { result ≡ at + word_bytes (length (value_pieces v n)) }
    ensures out_after { out.new ≡ sets out.old at (words_to_bytes (value_pieces v n)) }
{
    let mut to = at;
    let mut left = n;
    while 32767 < left {
        to = put_next(out, to, v);
        to = put_next(out, to, 32767);
        left -= 32767;
    }
    to = put_next(out, to, v);
    put_next(out, to, left as u16)
}
