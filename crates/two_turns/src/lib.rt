// Two whole turnings, and the law that joins them: turning back gives the sheet again, and the other way round.
//
// Each function makes both calls, so that its promise says it of the calls themselves and not only of definitions.
#![tactic(auto)]

ghost use Rattle.std.specs.Prelude.{◌≡◌, ◌*◌, ◌≤◌, length};
ghost use Rattle.refusals.specs.Rejections.{rejected_by};
ghost use Rattle.orient.specs.Turning.{turn_rejection};
ghost use Rattle.two_turns.specs.Call.{TurnCall, TurnBackCall, ComesBack};

use orient::{turn, turn_back};
use refusals::Rejection;

// What the two calls answered. The second is made where the first is rejected too.
#[derive(Clone, Copy, Debug, PartialEq, Eq)]
pub struct TwoTurns {
    pub first: Result<(), Rejection>,
    pub second: Result<(), Rejection>,
}

// Turns a sheet, and turns the picture back into a third buffer. Where the sheet is turned and the third buffer has room, it
// holds the sheet's pixels again.
pub fn turn_and_back(
    slo: u32,
    ppl: u32,
    nol: u32,
    pixels: &[u16],
    upright: &mut [u16],
    again: &mut [u16],
) -> TwoTurns
    ensures first_call { TurnCall slo ppl nol pixels.now upright.old (rejected_by result.first) upright.new }
    ensures second_call { TurnBackCall slo ppl nol upright.new again.old (rejected_by result.second) again.new }
    ensures sheet_again { turn_rejection slo ppl nol (length pixels.now) (length upright.old) ≡ 0 → nol * ppl ≤ length again.old → ComesBack ppl nol pixels.now again.old (rejected_by result.second) again.new }
{
    let first = turn(slo, ppl, nol, pixels, upright);
    let second = turn_back(slo, ppl, nol, upright, again);
    TwoTurns { first, second }
}

// Turns a picture back, and turns the sheet into a third buffer. Where the picture is turned back and the third buffer has
// room, it holds the picture again.
pub fn back_and_turn(
    slo: u32,
    ppl: u32,
    nol: u32,
    upright: &[u16],
    pixels: &mut [u16],
    again: &mut [u16],
) -> TwoTurns
    ensures first_call { TurnBackCall slo ppl nol upright.now pixels.old (rejected_by result.first) pixels.new }
    ensures second_call { TurnCall slo ppl nol pixels.new again.old (rejected_by result.second) again.new }
    ensures picture_again { turn_rejection slo ppl nol (length upright.now) (length pixels.old) ≡ 0 → nol * ppl ≤ length again.old → ComesBack ppl nol upright.now again.old (rejected_by result.second) again.new }
{
    let first = turn_back(slo, ppl, nol, upright, pixels);
    let second = turn(slo, ppl, nol, pixels, again);
    TwoTurns { first, second }
}
