// A picture written and read back, and the law that joins the two calls: reading gives back every pixel.
//
// The function makes both calls, so that its promise says it of the calls themselves and not only of definitions.
#![tactic(auto)]

ghost use Rattle.std.specs.Prelude.{◌≡◌, ◌*◌, ◌≤◌, length};
ghost use Rattle.encode_raster.specs.Answer.{picture};
ghost use Rattle.encode_raster.specs.Writing.{writer_rejection};
ghost use Rattle.round_trip.specs.Call.{BothCalls, GivenBack};

use decode_raster::{Reading, read_raster};
use encode_raster::write_raster;
use refusals::Rejection;
use units::Bytes;

// What the writer answered, and the reader. Where the writer rejected the picture nothing was read, and the reader's answer is the
// writer's rejection, so that it is not taken for a reading.
#[derive(Clone, Copy, Debug, PartialEq, Eq)]
pub struct RoundTrip {
    pub written: Result<Bytes, Rejection>,
    pub read: Result<Reading, Rejection>,
}

// Writes a picture to the output and reads what was written into `back` and `marks`. Where the writer does not reject it
// and there is room for the reading, every pixel comes back.
pub fn write_and_read(
    dtc: u32,
    ppl: u32,
    nol: u32,
    slo: u32,
    scn: u32,
    drs: u16,
    table: &[u8],
    pixels: &[u16],
    out: &mut [u8],
    back: &mut [u16],
    marks: &mut [u8],
) -> RoundTrip
    ensures calls { BothCalls (picture dtc ppl nol slo scn drs table.now pixels.now) out.old back.old marks.old result out.new back.new marks.new }
    ensures read_back { writer_rejection (picture dtc ppl nol slo scn drs table.now pixels.now) (length out.old) ≡ 0 → nol * ppl ≤ length back.old → nol ≤ length marks.old → GivenBack (picture dtc ppl nol slo scn drs table.now pixels.now) back.old marks.old result out.new back.new marks.new }
{
    match write_raster(dtc, ppl, nol, slo, scn, drs, table, pixels, out) {
        Ok(size) => RoundTrip {
            written: Ok(size),
            read: read_raster(&out[..size.0], back, marks),
        },
        Err(rejection) => RoundTrip {
            written: Err(rejection),
            read: Err(rejection),
        },
    }
}
