// The pixels of words, sixteen to a word, the leftmost in the highest bit.
//
// A byte's eight pixels are made at once, by the weights of its bits. What lies behind a body's pixels stays as it was.
#![tactic(auto)]

ghost use Rattle.std.specs.Prelude.{◌≡◌, ◌+◌, ◌*◌, ◌≤◌, ◌<◌, min, length};
ghost use Rattle.units.specs.LittleEndian.{u16_at};
ghost use Rattle.units.specs.Over.{over};
ghost use Rattle.units.specs.Words.{words, word_count};
ghost use Rattle.packing.specs.Packing.{bits, word_bits};
ghost use Rattle.packing.specs.Weights.{powers, pick, picked};

use slices::widen;
use units::{Words, u16_at, word_count, words_to_bytes};

// How many of a row's p pixels the words of a body hold. Words are compared, so no product can overflow.
pub fn pixels_held(body: &[u8], p: usize) -> usize
    ensures { result ≡ min (16 * (word_count body.now).0) p }
{
    let count = word_count(body).0;
    if count <= p / 16 { 16 * count } else { p }
}

// Stores a body's pixels from the start of a row on, as far as both go.
pub fn unpack(body: &[u8], row: &mut [u16])
    ensures { row.new ≡ over (word_bits (words body.now)) row.old }
{
    let n = pixels_held(body, row.len());
    let weights = kept_weights(n / 16);
    let whole = n / 16;
    for k in 0..whole {
        let at = 16 * k;
        let end = at + 16;
        let i = words_to_bytes(Words(k)).0;
        put_word(body, i, &weights, &mut row[at..end]);
    }
    let last = words_to_bytes(Words(whole)).0;
    put_bits(u16_at(body, last), &mut row[16 * whole..n]);
}

// The weights of a byte's bits, the highest first; and all of them once more.
const TWICE: [u8; 16] = [128, 64, 32, 16, 8, 4, 2, 1, 128, 64, 32, 16, 8, 4, 2, 1];

// The weights, out of one half or the other by a number that is not known before: how many words there are. The halves are the same, but
// the compiler does not see it, and so keeps the weights in a register and makes eight pixels at once. Of constants it makes shifts, a
// pixel at a time.
fn kept_weights(n: usize) -> [u16; 8]
    ensures { result ≡ powers 8 }
{
    let twice = TWICE;
    let from = 8 * (n % 2);
    let end = from + 8;
    let mut weights = [0u16; 8];
    widen(&twice[from..end], &mut weights);
    weights
}

// The pixels of the word at byte i, those of its high byte first.
fn put_word(body: &[u8], i: usize, weights: &[u16; 8], part: &mut [u16])
    requires i_in_bounds { i + 2 ≤ length body.now }
    requires weights_value { weights.now ≡ powers 8 }
    requires part_len { length part.old ≡ 16 }
    ensures { part.new ≡ bits 16 (u16_at body.now i) }
{
    let low = body[i];
    let high = body[i + 1];
    put_byte(high, weights, &mut part[..8]);
    put_byte(low, weights, &mut part[8..]);
}

// The pixels of a byte.
#[tactic(auto, using(packing::proofs::Laws::Weights::pick_steps))]
fn put_byte(b: u8, weights: &[u16; 8], part: &mut [u16])
    requires weights_len { length weights.now ≡ 8 }
    requires part_len { length part.old ≡ 8 }
    ensures { part.new ≡ picked b weights.now }
{
    let w = u16::from(b);
    for j in 0..8 {
        part[j] = bit(w, weights[j]);
    }
}

// The bit of a weight.
fn bit(w: u16, weight: u16) -> u16
    ensures { result ≡ pick w weight }
{
    if w & weight == 0 { 0 } else { 1 }
}

// The pixels of a word from the first on, as far as the part goes, one at a time.
#[tactic(auto, using(packing::proofs::Laws::Weights::bit_steps))]
pub fn put_bits(w: u16, part: &mut [u16])
    ensures { part.new ≡ over (bits 16 w) part.old }
{
    let n = part.len().min(16);
    for j in 0..n {
        part[j] = (w >> (15 - j)) % 2;
    }
}
