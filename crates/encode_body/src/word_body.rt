// Type 3: a word for each pixel.
ghost use Rattle.std.specs.Prelude.{◌≡◌, length};
ghost use Rattle.units.specs.Over.{over};
ghost use Rattle.codec.specs.WordPixels.{word_body};

use units::{Bytes, Words, store_words, words_to_bytes};

// Writes each pixel, low byte first.
pub fn write_words(row: &[u16], out: &mut [u8]) -> Bytes
    ensures result_value { result.0 ≡ length (word_body row.now) }
    ensures out_after { out.new ≡ over (word_body row.now) out.old }
{
    store_words(row, out);
    words_to_bytes(Words(row.len()))
}
