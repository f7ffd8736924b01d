// Two whole calls of `ingr_raster`, and the law that joins them: damage inside the bodies of scanlines stays there, of the bytes that
// a program in C holds.
//
// The function makes both calls, so that its promise says demand 3 of the calls themselves and not only of definitions.
#![tactic(auto)]

ghost use Rattle.std.specs.Prelude.{◌≡◌, false};
ghost use Rattle.layout.specs.Chain.{sheet_of};
ghost use Rattle.isolation.specs.Statement.{ChangedInBodies};
ghost use Rattle.answers.specs.Answer.{is_rejection};
ghost use Rattle.two_c_readings.specs.Call.{outcome, called};
ghost use Rattle.two_c_readings.specs.Statement.{IsolatedBytes};

use capi::ingr_raster;

#[derive(Clone, Copy)]
pub struct TwoResults {
    pub first: u32,
    pub second: u32,
}

// Reads one file into the first three slices and another into the second three. Where the first has scanline headers and its
// call is not rejected, and the other differs from it only inside bodies that its chain reaches, the two calls are isolated: that is
// demand 3.
pub fn call_two(
    one: &[u8],
    pixels1: &mut [u8],
    marks1: &mut [u8],
    answer1: &mut [u8],
    two: &[u8],
    pixels2: &mut [u8],
    marks2: &mut [u8],
    answer2: &mut [u8],
) -> TwoResults
    ensures first_call { outcome result.first pixels1.new marks1.new answer1.new ≡ called one.now pixels1.old marks1.old answer1.old }
    ensures second_call { outcome result.second pixels2.new marks2.new answer2.new ≡ called two.now pixels2.old marks2.old answer2.old }
    ensures demand_3 { (sheet_of one.now).scn ≡ 1 → is_rejection result.first ≡ false → ChangedInBodies one.now two.now → IsolatedBytes one.now two.now pixels2.old marks2.old answer2.old (outcome result.first pixels1.new marks1.new answer1.new) (outcome result.second pixels2.new marks2.new answer2.new) }
{
    let first = ingr_raster(one, pixels1, marks1, answer1);
    let second = ingr_raster(two, pixels2, marks2, answer2);
    TwoResults { first, second }
}
