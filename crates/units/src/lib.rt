// Counts of blocks, words and bytes with the conversions between them, and little-endian numbers in bytes.
//
// The format counts in blocks of 512 bytes, words of 16 bits and single bytes. Each count is a type of its own, so that
// one is not taken for another, and each conversion is in this crate. A position in a slice is no count, and
// stays a `usize`. Nothing is asked of a caller: a count too large for its type is answered as the largest, and a byte
// past the end of a slice reads as 0.
#![tactic(auto)]

mod little_endian;
mod word_slice;

ghost use Rattle.std.specs.Prelude.{◌≡◌, min};
ghost use Rattle.units.specs.Counts.{words_of_blocks, bytes_of_blocks, bytes_of_words, words_of_bytes, blocks_of_words, held_blocks, held_bytes};

pub use little_endian::{byte_at, u16_at, u32_at};
pub use word_slice::{
    fill_words, load_words, put_byte, put_long, put_word, store_words, widen_words, word_count,
    word_start,
};

#[derive(Clone, Copy, Debug, PartialEq, Eq, PartialOrd, Ord)]
pub struct Blocks(pub u16);

#[derive(Clone, Copy, Debug, PartialEq, Eq, PartialOrd, Ord)]
pub struct Words(pub usize);

#[derive(Clone, Copy, Debug, PartialEq, Eq, PartialOrd, Ord)]
pub struct Bytes(pub usize);

impl From<Blocks> for Words {
    ghost from_gives = { λ n words. words.0 ≡ (words_of_blocks n).0 };

    fn from(n: Blocks) -> Words {
        Words(256 * usize::from(n.0))
    }
}

pub fn blocks_to_words(n: Blocks) -> Words
    ensures { result.0 ≡ (words_of_blocks n).0 }
{
    Words::from(n)
}

impl From<Blocks> for Bytes {
    ghost from_gives = { λ n bytes. bytes.0 ≡ (bytes_of_blocks n).0 };

    fn from(n: Blocks) -> Bytes {
        Bytes(512 * usize::from(n.0))
    }
}

pub fn blocks_to_bytes(n: Blocks) -> Bytes
    ensures { result.0 ≡ (bytes_of_blocks n).0 }
{
    Bytes::from(n)
}

// No `From`, since too many words saturate; and no `saturating_mul`, since the edits of must-fail/ move the limit by one.
pub fn words_to_bytes(n: Words) -> Bytes
    ensures { result.0 ≡ (held_bytes (bytes_of_words n)).0 }
{
    if 9223372036854775807 < n.0 {
        return Bytes(18446744073709551615);
    }
    Bytes(2 * n.0)
}

// Whole words: an odd last byte is dropped, so it is no `From`.
pub fn bytes_to_words(n: Bytes) -> Words
    ensures { result.0 ≡ (words_of_bytes n).0 }
{
    Words(n.0 / 2)
}

// Whole blocks: the words after the last whole one are dropped, and too many saturate, so it is no `From`.
pub fn words_to_blocks(n: Words) -> Blocks
    ensures { result.0 ≡ (held_blocks (blocks_of_words n)).0 }
{
    let blocks = n.0 / 256;
    Blocks(u16::try_from(blocks).unwrap_or(u16::MAX))
}

// The smaller of two numbers.
pub fn lesser(a: usize, b: usize) -> usize
    ensures { result ≡ min a b }
{
    if a < b { a } else { b }
}
