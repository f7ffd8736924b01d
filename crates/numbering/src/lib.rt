// The line number that a scanline header must have. It is one word, so that it rolls over after 65,535: to 0 or to 1, as line 65,536 has it.
#![tactic(auto)]

ghost use Rattle.std.specs.Prelude.{◌≡◌, ◌≤◌};
ghost use Rattle.numbering.specs.Numbering.{wanted_number, rollover_met};

use units::u16_at;

// The line number that a scanline must have, and what is known of the number in line 65,536.
#[derive(Clone, Copy, Debug, PartialEq, Eq)]
pub struct Numbered {
    pub number: u16,
    pub rollover: u16,
}

// Numbers scanline k, counted from 0, which starts with `rest` and which the chain has come to. `known` is what was known before; where
// this is line 65,536, its number is kept, so that nobody looks for it. Lines before that are one test and one sum.
#[tactic(auto, using(crate::proofs::Laws::Numbering::line_steps))]
pub fn number_line(known: u16, k: usize, rest: &[u8]) -> Numbered
    ensures number_value { result.number ≡ wanted_number result.rollover k }
    ensures rollover_value { result.rollover ≡ rollover_met known k rest.now }
{
    if k < 65535 {
        return Numbered {
            number: (k + 1) as u16,
            rollover: known,
        };
    }
    let rollover = rollover_met(known, k, rest);
    let number = number_past(rollover, k);
    Numbered { number, rollover }
}

// The number in line 65,536 where scanline k is that line, else what is known of it.
#[tactic(auto, unfolding(crate::specs::Numbering::rollover_met))]
fn rollover_met(known: u16, k: usize, rest: &[u8]) -> u16
    ensures { result ≡ rollover_met known k rest.now }
{
    if k == 65535 {
        return u16_at(rest, 4);
    }
    known
}

// The line number that a scanline from line 65,536 on must have, where that line has the number `rollover`.
#[tactic(auto, using(crate::proofs::Laws::Numbering::past_steps))]
fn number_past(rollover: u16, k: usize) -> u16
    requires { 65535 ≤ k }
    ensures { result ≡ wanted_number rollover k }
{
    if rollover == 1 {
        return (k % 65535 + 1) as u16;
    }
    ((k % 65536 + 1) % 65536) as u16
}
