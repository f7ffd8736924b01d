// Scanlines of type 2 as nearly all are: whole, and with the header, where there is one, of a good scanline of their size. One look
// tells them, in place of the tests in their order.
ghost use Rattle.std.specs.Prelude.{◌≡◌};
ghost use Rattle.scan_scanline.specs.Regular.{regular_size, is_regular};

use units::{Bytes, Words, byte_at, u16_at, words_to_bytes};

// The bytes of such a scanline of p pixels: with a header a spare byte follows an odd number of them.
pub fn regular_size(scn: u8, p: u32) -> Bytes
    ensures { result.0 ≡ regular_size scn p }
{
    let n = p as usize;
    if scn == 1 {
        Bytes(8 + n + n % 2)
    } else {
        Bytes(n)
    }
}

// Whether the bytes that are left start with one of this size.
#[tactic(auto, unfolding(crate::specs::Regular::is_regular))]
pub fn is_regular(scn: u8, number: u16, size: Bytes, rest: &[u8]) -> bool
    ensures { result ≡ is_regular scn number size.0 rest.now }
{
    rest.len() >= size.0
        && (scn != 1
            || byte_at(rest, 1) == 0x59
                && 4 + words_to_bytes(Words(u16_at(rest, 2) as usize)).0 == size.0
                && u16_at(rest, 4) == number
                && u16_at(rest, 6) == 0)
}
