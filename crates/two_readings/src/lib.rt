// Two whole readings, and the law that joins them: damage inside the bodies of scanlines stays there.
//
// The function makes both calls, so that its promise says demand 3 of the calls themselves and not only of definitions.
#![tactic(auto)]

ghost use Rattle.std.specs.Prelude.{◌≡◌, length};
ghost use Rattle.layout.specs.Chain.{sheet_of};
ghost use Rattle.layout.specs.Reading.{raster_rejection};
ghost use Rattle.decode_raster.specs.Answer.{raster_numbers};
ghost use Rattle.isolation.specs.Statement.{ChangedInBodies, Isolated};
ghost use Rattle.two_readings.specs.Call.{ReadingOf};

use decode_raster::{Reading, read_raster};
use refusals::Rejection;

#[derive(Clone, Copy)]
pub struct TwoAnswers {
    pub first: Result<Reading, Rejection>,
    pub second: Result<Reading, Rejection>,
}

// Reads one file into the first two buffers and another into the second two. Where the first has scanline headers and its
// reading is not rejected, and the other differs from it only inside bodies that its chain reaches, the two readings are
// isolated: that is demand 3.
pub fn read_two(
    one: &[u8],
    pixels1: &mut [u16],
    marks1: &mut [u8],
    two: &[u8],
    pixels2: &mut [u16],
    marks2: &mut [u8],
) -> TwoAnswers
    ensures first_call { ReadingOf one.now pixels1.old marks1.old result.first pixels1.new marks1.new }
    ensures second_call { ReadingOf two.now pixels2.old marks2.old result.second pixels2.new marks2.new }
    ensures demand_3 { (sheet_of one.now).scn ≡ 1 → raster_rejection one.now (length pixels1.old) (length marks1.old) ≡ 0 → ChangedInBodies one.now two.now → Isolated one.now two.now pixels2.old marks2.old (raster_numbers result.first) pixels1.new marks1.new (raster_numbers result.second) pixels2.new marks2.new }
{
    let first = read_raster(one, pixels1, marks1);
    let second = read_raster(two, pixels2, marks2);
    TwoAnswers { first, second }
}
