// Runs of equal pixels in a row.
ghost use Rattle.std.specs.Prelude.{◌≡◌, ◌≤◌, length};
ghost use Rattle.codec.specs.Leading.{leading};

// How many pixels at the start have the value `v`.
pub fn run_length(pixels: &[u16], v: u16) -> usize
    ensures value { result ≡ leading v pixels.now }
    ensures within { result ≤ length pixels.now }
{
    pixels.iter().take_while(|pixel| **pixel == v).count()
}
