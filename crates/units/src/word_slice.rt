// The words of a slice of bytes, low byte first: counted, found, loaded and stored.
ghost use Rattle.std.specs.Prelude.{◌≡◌, length, replicate, set};
ghost use Rattle.std.proofs.lemmas.List.Edits.{sets};
ghost use Rattle.units.specs.LittleEndian.{u32_bytes};
ghost use Rattle.units.specs.Over.{over};
ghost use Rattle.units.specs.Words.{words, two_bytes, words_to_bytes, word_count, word_start};

use crate::{Bytes, Words, bytes_to_words};

// How many whole words a slice holds.
pub fn word_count(s: &[u8]) -> Words
    ensures { result.0 ≡ (word_count s.now).0 }
{
    bytes_to_words(Bytes(s.len()))
}

// The position where word i of a slice starts, or the slice's end where it has fewer whole words.
pub fn word_start(s: &[u8], i: usize) -> usize
    ensures { result ≡ word_start s.now i }
{
    let n = word_count(s).0;
    if n < i { s.len() } else { 2 * i }
}

// Loads the words of a slice from its start on, as far as the buffer goes. No `from_le_bytes`, since an edit of must-fail/ changes the
// weight of the high byte.
#[tactic(auto, using(crate::proofs::Laws::Words::loading), unfolding(crate::specs::LittleEndian::u16_at))]
pub fn load_words(from: &[u8], to: &mut [u16])
    ensures { to.new ≡ over (words from.now) to.old }
{
    let n = word_count(from).0.min(to.len());
    for i in 0..n {
        let low = u16::from(from[2 * i]);
        let high = u16::from(from[2 * i + 1]);
        to[i] = low + 256 * high;
    }
}

// Stores words from the start of a buffer on, as far as it goes.
#[tactic(auto, using(crate::proofs::Laws::Stores::storing))]
pub fn store_words(from: &[u16], to: &mut [u8])
    ensures { to.new ≡ over (words_to_bytes from.now) to.old }
{
    // those that fit whole
    let n = from.len().min(to.len() / 2);
    for i in 0..n {
        let [low, high] = from[i].to_le_bytes();
        to[2 * i] = low;
        to[2 * i + 1] = high;
    }
    if n < from.len() {
        put_word(to, 2 * n, from[n]);
    }
}

// Stores one word over and over from the start of a buffer on, as far as it goes.
#[tactic(auto, using(crate::proofs::Laws::Stores::storing))]
pub fn fill_words(out: &mut [u8], w: u16)
    ensures { out.new ≡ over (words_to_bytes (replicate (length out.old) w)) out.old }
{
    let [low, high] = w.to_le_bytes();
    // those that fit whole
    let n = out.len() / 2;
    for i in 0..n {
        out[2 * i] = low;
        out[2 * i + 1] = high;
    }
    put_word(out, 2 * n, w);
}

// Stores bytes as words from the start of a buffer on, as far as it goes.
#[tactic(auto, using(crate::proofs::Laws::Stores::storing))]
pub fn widen_words(from: &[u8], to: &mut [u8])
    ensures { to.new ≡ over (words_to_bytes from.now) to.old }
{
    // those that fit whole
    let n = from.len().min(to.len() / 2);
    for i in 0..n {
        to[2 * i] = from[i];
        to[2 * i + 1] = 0;
    }
    if n < from.len() {
        put_byte(to, 2 * n, from[n]);
    }
}

// Stores the four bytes of a number of 32 bits, low word first, as far as the buffer goes.
pub fn put_long(out: &mut [u8], at: usize, v: u32)
    ensures { out.new ≡ sets out.old at (u32_bytes v) }
{
    if at < out.len() {
        put_word(out, at, (v % 65536) as u16);
        put_word(out, at + 2, (v / 65536) as u16);
    }
}

// Stores the word's two bytes, as far as the buffer goes.
pub fn put_word(out: &mut [u8], at: usize, w: u16)
    ensures { out.new ≡ sets out.old at (two_bytes w) }
{
    if at < out.len() {
        let [low, high] = w.to_le_bytes();
        put_byte(out, at, low);
        put_byte(out, at + 1, high);
    }
}

pub fn put_byte(out: &mut [u8], at: usize, b: u8)
    ensures { out.new ≡ set out.old at b }
{
    if at < out.len() {
        out[at] = b;
    }
}
