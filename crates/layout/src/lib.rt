// How a raster lies in the bytes that hold it: its scanlines, the chain that they form, and the reading of the whole.
//
// Definitions and laws, in specs/, that the crates which read a raster cite; and what they hand on of one.
#![tactic(auto)]

ghost use Rattle.std.specs.Prelude.{◌≡◌, cond};
ghost use Rattle.layout.specs.Chain.{sheet_of, raster_of, one_if_good};
ghost use Rattle.layout.specs.Reading.{answer_of};

use fields::{data_start, fields_of};

// A raster: the bytes that its scanlines may look at, where its data start, SCN, the data type, pixels per line and the number of lines.
#[derive(Clone, Copy)]
pub struct RasterLayout<'a> {
    pub bytes: &'a [u8],
    pub start: usize,
    pub scn: u8,
    pub dtc: u16,
    pub ppl: u32,
    pub nol: u32,
}

// The raster of a whole file, by its header.
pub fn sheet_layout(file: &[u8]) -> RasterLayout<'_>
    ensures { raster_of result ≡ sheet_of file.now }
{
    let h = fields_of(file);
    RasterLayout {
        bytes: file,
        start: data_start(file),
        scn: h.scn,
        dtc: h.dtc,
        ppl: h.ppl,
        nol: h.nol,
    }
}

// Whether all of them are good.
pub fn is_whole(good: u32, nol: u32) -> bool
    ensures { cond result 0 1 ≡ answer_of good nol }
{
    good == nol
}

// What a scanline with this status counts among the good ones.
pub fn one_if_good(status: u8) -> u32
    ensures { result ≡ one_if_good status }
{
    u32::from(status == 0)
}
