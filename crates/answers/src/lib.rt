// The numbers of an answer, stored in bytes.
#![tactic(auto)]

ghost use Rattle.std.specs.Prelude.{◌≡◌};
ghost use Rattle.units.specs.Over.{over};
ghost use Rattle.answers.specs.Answer.{number_bytes};

use units::put_long;

// Stores numbers from the start of a buffer on, four bytes each, low byte first, as far as it goes.
pub fn store_numbers(numbers: &[u32], out: &mut [u8])
    ensures { out.new ≡ over (number_bytes numbers.now) out.old }
{
    for i in 0..numbers.len() {
        put_long(out, 4 * i, numbers[i]);
    }
}
