// Type 3: a word for each pixel.
ghost use Rattle.std.specs.Prelude.{◌≡◌, length};
ghost use Rattle.refusals.specs.Faults.{status_of};
ghost use Rattle.units.specs.Over.{over, zeros};
ghost use Rattle.units.specs.Rules.{first};
ghost use Rattle.units.specs.Words.{word_count, words_to_bytes};
ghost use Rattle.codec.specs.Extent.{extent_of};
ghost use Rattle.codec.specs.WordPixels.{word_rules, word_pixels, word_extent};

use codec::Scanline;
use refusals::Fault;
use slices::{clear, copy};
use units::{Bytes, Words, bytes_to_words, lesser, word_count, words_to_bytes};

// The status of a body for a row of p pixels: a word for each.
pub fn words_status(body: &[u8], p: usize) -> Result<(), Fault>
    ensures { status_of result ≡ first (word_rules body.now p) }
{
    if word_count(body).0 != p {
        return Err(Fault::WordCount);
    }
    Ok(())
}

// What a scanline of p pixels takes of the bytes that are left.
pub fn words_extent(rest: &[u8], p: usize) -> Result<Scanline, Fault>
    ensures { extent_of result ≡ word_extent rest.now p }
{
    if word_count(rest).0 < p {
        return Err(Fault::PastEnd);
    }
    Ok(Scanline::taken(words_to_bytes(Words(p))))
}

// Stores a row's pixels as two bytes each, low byte first, as far as the body goes, and clears what is left of the row. The bytes are
// those of the body.
pub fn paint_word_bytes(body: &[u8], row: &mut [u8])
    ensures { row.new ≡ over (words_to_bytes (word_pixels body.now (word_count row.old).0)) (zeros (length row.old)) }
{
    let p = bytes_to_words(Bytes(row.len())).0;
    let n = lesser(word_count(body).0, p);
    let end = words_to_bytes(Words(n)).0;
    copy(&body[..end], row);
    clear(&mut row[end..]);
}
