// The bodies of type 1, written: sixteen pixels to a word, the leftmost in the highest bit.
//
// A body's bytes are put over the start of the buffer that is lent, as far as that goes, and the answer is how many bytes the body
// has. Lent no byte the writer only counts.
#![tactic(auto)]

ghost use Rattle.std.specs.Prelude.{◌≡◌, length};
ghost use Rattle.units.specs.Over.{over};
ghost use Rattle.codec.specs.PackedPixels.{packed_body};

use packing::{first_word, packed_count};
use units::{Bytes, Words, put_word, words_to_bytes};

// Writes a row of 0 and 1.
#[tactic(auto, using(units::proofs::Laws::Over::sets_over, units::proofs::Laws::Over::sets_past, packing::proofs::Laws::Writing::body_end, packing::proofs::Laws::Writing::body_next, units::proofs::Laws::Parts::rest_is))]
pub fn write_packed(row: &[u16], out: &mut [u8]) -> Bytes
    ensures result_value { result.0 ≡ length (packed_body row.now) }
    ensures out_after { out.new ≡ over (packed_body row.now) out.old }
{
    let count = packed_count(row.len());
    for i in 0..count {
        let to = words_to_bytes(Words(i)).0;
        if out.len() <= to {
            break;
        }
        put_word(out, to, first_word(&row[16 * i..]));
    }
    words_to_bytes(Words(count))
}
