// Little-endian numbers at a position of a slice. Every byte past the end reads as 0.
ghost use Rattle.std.specs.Prelude.{◌≡◌};
ghost use Rattle.units.specs.LittleEndian.{byte_at, u16_at, u32_at};

pub fn byte_at(s: &[u8], at: usize) -> u8
    ensures { result ≡ byte_at s.now at }
{
    if at < s.len() { s[at] } else { 0 }
}

#[tactic(auto, unfolding(crate::specs::LittleEndian::u16_at))]
pub fn u16_at(s: &[u8], at: usize) -> u16
    ensures { result ≡ u16_at s.now at }
{
    if at < s.len() {
        let low = byte_at(s, at);
        let high = byte_at(s, at + 1);
        u16::from_le_bytes([low, high])
    } else {
        0
    }
}

#[tactic(auto, unfolding(crate::specs::LittleEndian::u16_at, crate::specs::LittleEndian::u32_at))]
pub fn u32_at(s: &[u8], at: usize) -> u32
    ensures { result ≡ u32_at s.now at }
{
    if at < s.len() {
        let low = u16_at(s, at);
        let high = u16_at(s, at + 2);
        u32::from(low) + 65536 * u32::from(high)
    } else {
        0
    }
}
