// Text put into a lent buffer at a position, wherever that is: a `Text` has no position past its bytes, so these stay, whose promises speak of
// every position.
//
// Each puts its text at a position and answers the position after it. Where the text does not fit, nothing is stored and the position stays.
ghost use Rattle.std.specs.Prelude.{◌≡◌};
ghost use Rattle.text.specs.Put.{put_at, next_at, DecimalPut};

use slices::copy;

pub fn put(out: &mut [u8], at: usize, text: &[u8]) -> usize
    ensures value { result ≡ next_at out.old at text.now }
    ensures out_after { out.new ≡ put_at out.old at text.now }
{
    if out.len() < at {
        return at;
    }
    if out.len() - at < text.len() {
        return at;
    }
    copy(text, &mut out[at..]);
    at + text.len()
}

// Puts the decimal digits of a number, as few as hold it.
pub fn put_decimal(out: &mut [u8], at: usize, n: u64) -> usize
    ensures { DecimalPut out.old at n result out.new }
{
    let mut digits = [0u8; 20];
    let k = io::decimal(n, &mut digits);
    put(out, at, &digits[..k])
}

// Puts a name and then a number.
pub fn put_field(out: &mut [u8], at: usize, name: &[u8], n: u64) -> usize
    ensures { DecimalPut (put_at out.old at name.now) (next_at out.old at name.now) n result out.new }
{
    let next = put(out, at, name);
    put_decimal(out, next, n)
}
