// Sixteen pixels to a word, the leftmost in the highest bit: definitions and laws, in specs/, how many words hold a row, and the word of
// its first pixels.
#![tactic(auto)]

ghost use Rattle.std.specs.Prelude.{◌≡◌, ◌+◌, ◌≤◌, ◌<◌, length};
ghost use Rattle.packing.specs.Packing.{packed_count, number};
ghost use Rattle.packing.specs.Lanes.{level_at, four_levels};

// How many words hold p pixels.
pub fn packed_count(p: usize) -> usize
    ensures { result ≡ packed_count p }
{
    p / 16 + (p % 16 + 15) / 16
}

// The word of a row's first sixteen pixels, each reduced to its lowest bit. A place past the row's end counts 0.
pub fn first_word(row: &[u16]) -> u16
    ensures { result ≡ number 16 row.now }
{
    if row.len() < 16 {
        return short_word(row);
    }
    // each lane gets every fourth pixel
    let all = ((four(row, 0) * 16 + four(row, 4)) * 16 + four(row, 8)) * 16 + four(row, 12);
    let a = all % 65536;
    let b = all / 65536 % 65536;
    let c = all / 4294967296 % 65536;
    let d = all / 281474976710656;
    (8 * a + 4 * b + (c + c) + d) as u16
}

// Four pixels from `at` on, each in a lane of 16 bits: one load, where the compiler sees them side by side.
fn four(row: &[u16], at: usize) -> u64
    requires { at + 4 ≤ length row.now }
    ensures { result ≡ four_levels row.now at }
{
    let left = u64::from(row[at]) + 65536 * u64::from(row[at + 1]);
    let right = u64::from(row[at + 2]) + 65536 * u64::from(row[at + 3]);
    (left + 4294967296 * right) & 0x0001000100010001
}

// The word of a row that may have fewer pixels, one at a time.
#[tactic(auto, using(crate::proofs::Laws::Lanes::first_pixels), unfolding(crate::specs::Packing::number))]
fn short_word(row: &[u16]) -> u16
    ensures { result ≡ number 16 row.now }
{
    let mut w: u16 = 0;
    for j in 0..16 {
        w = w + w + level_at(row, j);
    }
    w
}

fn level_at(row: &[u16], i: usize) -> u16
    ensures { result ≡ level_at row.now i }
{
    if i < row.len() { row[i] % 2 } else { 0 }
}
