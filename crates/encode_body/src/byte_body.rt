// Type 2: a byte for each pixel.
ghost use Rattle.std.specs.Prelude.{◌≡◌, length};
ghost use Rattle.units.specs.Over.{over};
ghost use Rattle.codec.specs.BytePixels.{byte_body};

use slices::narrow;
use units::{Bytes, put_byte};

// Writes the low byte of each pixel, and with headers (`scn` 1) a spare byte 0 after an odd number of them.
pub fn write_bytes(scn: u8, row: &[u16], out: &mut [u8]) -> Bytes
    ensures result_value { result.0 ≡ length (byte_body scn row.now) }
    ensures out_after { out.new ≡ over (byte_body scn row.now) out.old }
{
    let p = row.len();
    narrow(row, out);
    if scn == 1 && p % 2 == 1 {
        put_byte(out, p, 0);
        return Bytes(p + 1);
    }
    Bytes(p)
}
