// The fields of a header as they are stored, and how long it is.
//
// Nothing is asked of a file: a byte past its end reads as 0.
#![tactic(auto)]

ghost use Rattle.std.specs.Prelude.{◌≡◌};
ghost use Rattle.units.specs.Counts.{bytes_of_blocks};
ghost use Rattle.fields.specs.Fields.{fields_of, header_words, header_blocks};

use units::{Blocks, Bytes, Words, byte_at, u16_at, u32_at, words_to_blocks};

// The fields that are looked at, by the format's names.
#[derive(Clone, Copy, Debug, PartialEq, Eq)]
pub struct Fields {
    pub htc: u16,
    pub wtf: Words,
    pub dtc: u16,
    pub ppl: u32,
    pub nol: u32,
    pub drs: u16,
    pub slo: u8,
    pub scn: u8,
    pub ver: u8,
    pub ctv: u16,
    pub cte: u32,
}

// The fields of any file. Those past its end read as 0.
pub fn fields_of(file: &[u8]) -> Fields
    ensures { result ≡ fields_of file.now }
{
    Fields {
        htc: u16_at(file, 0),
        wtf: Words(usize::from(u16_at(file, 2))),
        dtc: u16_at(file, 4),
        ppl: u32_at(file, 184),
        nol: u32_at(file, 188),
        drs: u16_at(file, 192),
        slo: byte_at(file, 194),
        scn: byte_at(file, 195),
        ver: byte_at(file, 511),
        ctv: u16_at(file, 532),
        cte: u32_at(file, 536),
    }
}

// The words of a header: WTF counts those that follow the first two.
pub fn header_words(file: &[u8]) -> Words
    ensures { result.0 ≡ (header_words (fields_of file.now)).0 }
{
    Words(usize::from(u16_at(file, 2)) + 2)
}

// The whole blocks of a header. WTF is of two bytes, so they fit their type.
#[tactic(auto, unfolding(units::specs::LittleEndian::u16_at))]
pub fn header_blocks(file: &[u8]) -> Blocks
    ensures { result.0 ≡ (header_blocks (fields_of file.now)).0 }
{
    words_to_blocks(header_words(file))
}

// The byte where raster data begin: after the header's blocks.
pub fn data_start(file: &[u8]) -> usize
    ensures { result ≡ (bytes_of_blocks (header_blocks (fields_of file.now))).0 }
{
    Bytes::from(header_blocks(file)).0
}
