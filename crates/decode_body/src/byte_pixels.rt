// Type 2: a byte for each pixel.
ghost use Rattle.std.specs.Prelude.{◌≡◌, length};
ghost use Rattle.refusals.specs.Faults.{status_of};
ghost use Rattle.units.specs.Over.{over, zeros};
ghost use Rattle.units.specs.Rules.{first};
ghost use Rattle.units.specs.Words.{word_count, words_to_bytes};
ghost use Rattle.codec.specs.Extent.{extent_of};
ghost use Rattle.codec.specs.BytePixels.{byte_rules, byte_pixels, byte_extent};

use codec::Scanline;
use refusals::Fault;
use slices::clear;
use units::{Bytes, Words, bytes_to_words, lesser, widen_words, words_to_bytes};

// The status of a body for a row of p pixels: a byte for each, and a spare byte after an odd number of them. The spare byte is what is
// left of the body, so no sum can overflow.
pub fn bytes_status(body: &[u8], p: usize) -> Result<(), Fault>
    ensures { status_of result ≡ first (byte_rules body.now p) }
{
    if body.len() < p {
        return Err(Fault::WordCount);
    }
    if body.len() - p != p % 2 {
        return Err(Fault::WordCount);
    }
    Ok(())
}

// What a scanline of p pixels takes of the bytes that are left: no spare byte.
pub fn bytes_extent(rest: &[u8], p: usize) -> Result<Scanline, Fault>
    ensures { extent_of result ≡ byte_extent rest.now p }
{
    if rest.len() < p {
        return Err(Fault::PastEnd);
    }
    Ok(Scanline::taken(Bytes(p)))
}

// Stores a row's pixels as two bytes each, low byte first, as far as the body goes, and clears what is left of the row.
pub fn paint_byte_bytes(body: &[u8], row: &mut [u8])
    ensures { row.new ≡ over (words_to_bytes (byte_pixels body.now (word_count row.old).0)) (zeros (length row.old)) }
{
    let p = bytes_to_words(Bytes(row.len())).0;
    let n = lesser(body.len(), p);
    widen_words(&body[..n], row);
    let end = words_to_bytes(Words(n)).0;
    clear(&mut row[end..]);
}
