// One scanline of a raster, with a header or without, scanned in the bytes that are left of it: its status, which is the paper's mark,
// where the next one starts, and where its body lies. No pixel is stored.
#![tactic(auto)]

mod headed;
mod regular;

ghost use Rattle.std.specs.Prelude.{◌≡◌};
ghost use Rattle.codec.specs.Extent.{extent_of};
ghost use Rattle.layout.specs.Scanline.{step_of, reading_of};
ghost use Rattle.scan_scanline.specs.Answer.{IsScan, body_start, first_column};

pub use codec::Scanline;
use decode_body::body_extent;
use refusals::Fault;
pub use regular::{is_regular, regular_size};

// Scans a scanline of p pixels. `scn` and `dtc` are the raster's SCN and data type, and `number` the line number that its header
// must have. The two stand apart here and above: each step that follows goes by one of them alone, so that a struct of both would be
// taken apart again at once.
pub fn scan_scanline(
    scn: u8,
    dtc: u16,
    number: u16,
    p: usize,
    rest: &[u8],
) -> Result<Scanline, Fault>
    ensures { IsScan (step_of scn dtc p rest.now) (reading_of scn dtc p number rest.now) (extent_of result) }
{
    if scn == 1 {
        headed::scan_headed(dtc, number, p, rest)
    } else {
        body_extent(dtc, rest, p)
    }
}

// Where the body of a scanline starts: after the header, where there is one.
pub fn body_start(scn: u8) -> usize
    ensures { result ≡ body_start scn }
{
    if scn == 1 { 8 } else { 0 }
}

// The column of its body's first pixel: the pixel offset, where there is a header.
pub fn first_column(scn: u8, rest: &[u8]) -> usize
    ensures { result ≡ first_column scn rest.now }
{
    if scn != 1 {
        return 0;
    }
    headed::pixel_offset(rest)
}
