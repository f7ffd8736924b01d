// What each data type says of a scanline's body, in both directions: its pixels and statuses when it is read, its bytes
// when it is written.
//
// Definitions and laws, in specs/, and the answer of a reader of scanlines.
#![tactic(auto)]

ghost use Rattle.std.specs.Prelude.{◌≡◌, Ok};
ghost use Rattle.codec.specs.Extent as extents;

use refusals::Fault;
use units::Bytes;

/// A scanline that is not lost: how many bytes on the next one starts, and the fault of its body, if it has one. Where a scanline is lost,
/// with all after it, its reader answers the fault alone.
#[derive(Clone, Copy)]
pub struct Scanline {
    pub used: Bytes,
    pub body: Result<(), Fault>,
}

impl Scanline {
    // A good scanline of n bytes.
    pub fn taken(n: Bytes) -> Scanline
        ensures { extents.extent_of (Ok result) ≡ extents.taken n.0 }
    {
        Scanline {
            used: n,
            body: Ok(()),
        }
    }
}
