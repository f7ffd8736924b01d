// The bodies of type 1, read: sixteen pixels to a word, the leftmost in the highest bit.
//
// A body is checked whole, by `packed_status` or `packed_extent`, before a pixel is stored.
#![tactic(auto)]

ghost use Rattle.std.specs.Prelude.{◌≡◌, length};
ghost use Rattle.refusals.specs.Faults.{status_of};
ghost use Rattle.units.specs.Over.{over, zeros};
ghost use Rattle.units.specs.Rules.{first};
ghost use Rattle.units.specs.Words.{word_count, words_to_bytes};
ghost use Rattle.packing.specs.Packing.{packed_count};
ghost use Rattle.codec.specs.Extent.{extent_of};
ghost use Rattle.codec.specs.PackedPixels.{packed_pixels, packed_rules, packed_extent, spare_set};

use codec::Scanline;
use packing::packed_count;
use refusals::Fault;
use slices::clear;
use units::{Bytes, Words, u16_at, word_count, words_to_bytes};
use unpacking::{pixels_held, unpack};
use unpacking_bytes::unpack_bytes;

// The status of a body for a row of p pixels: as few words as hold the row, with no spare bit set.
pub fn packed_status(body: &[u8], p: usize) -> Result<(), Fault>
    ensures { status_of result ≡ first (packed_rules body.now p) }
{
    if word_count(body).0 != packed_count(p) {
        return Err(Fault::WordCount);
    }
    if spare_set(body, p) {
        return Err(Fault::SpareBit);
    }
    Ok(())
}

// What a scanline of p pixels takes of the bytes that are left: as few words as hold it. A spare bit that is set does not lose the
// line, since its length is known.
pub fn packed_extent(rest: &[u8], p: usize) -> Result<Scanline, Fault>
    ensures { extent_of result ≡ packed_extent rest.now p }
{
    let count = packed_count(p);
    if word_count(rest).0 < count {
        return Err(Fault::PastEnd);
    }
    let size = words_to_bytes(Words(count)).0;
    let line = Scanline {
        used: Bytes(size),
        body: packed_status(&rest[..size], p),
    };
    Ok(line)
}

// Whether one of the last word's bits that no pixel has is set: they are its lowest.
fn spare_set(body: &[u8], p: usize) -> bool
    requires { (word_count body.now).0 ≡ packed_count p }
    ensures { result ≡ spare_set body.now p }
{
    let used = p % 16;
    if used == 0 {
        return false;
    }
    let last = u16_at(body, words_to_bytes(Words(p / 16)).0);
    last % (1u16 << (16 - used)) != 0
}

// Stores a body's pixels from the start of a row on, as far as both go.
pub fn paint_packed(body: &[u8], row: &mut [u16])
    ensures { row.new ≡ over (packed_pixels body.now (length row.old)) row.old }
{
    unpack(body, row);
}

// The same where each pixel is stored as two bytes, low byte first, and what is left of the row is cleared.
pub fn paint_packed_bytes(body: &[u8], row: &mut [u8])
    ensures { row.new ≡ over (words_to_bytes (packed_pixels body.now (word_count row.old).0)) (zeros (length row.old)) }
{
    let p = word_count(row).0;
    let end = words_to_bytes(Words(pixels_held(body, p))).0;
    unpack_bytes(body, &mut row[..end]);
    clear(&mut row[end..]);
}
