// The pixels of words as in crate `unpacking`, stored as two bytes each, low byte first.
#![tactic(auto)]

ghost use Rattle.std.specs.Prelude.{◌≡◌, ◌+◌, ◌*◌, ◌≤◌, ◌<◌, min, length};
ghost use Rattle.units.specs.LittleEndian.{u16_at};
ghost use Rattle.units.specs.Over.{over};
ghost use Rattle.units.specs.Words.{words, word_count, words_to_bytes};
ghost use Rattle.packing.specs.Packing.{bits, word_bits};
ghost use Rattle.packing.specs.Weights.{powers, pick, picked};

use slices::copy;
use units::{Words, store_words, u16_at, word_count, words_to_bytes};
use unpacking::put_bits;

// Stores a body's pixels from the start of a row on, as far as both go.
pub fn unpack_bytes(body: &[u8], row: &mut [u8])
    ensures { row.new ≡ over (words_to_bytes (word_bits (words body.now))) row.old }
{
    let n = bytes_held(body, row.len());
    let weights = kept_weights(n / 32);
    let whole = n / 32;
    for k in 0..whole {
        let at = 32 * k;
        let end = at + 32;
        let i = words_to_bytes(Words(k)).0;
        put_word(body, i, &weights, &mut row[at..end]);
    }
    let last = words_to_bytes(Words(whole)).0;
    put_last(u16_at(body, last), &mut row[32 * whole..n]);
}

// How many of a row's bytes the pixels of a body fill.
fn bytes_held(body: &[u8], size: usize) -> usize
    ensures { result ≡ min (32 * (word_count body.now).0) size }
{
    let count = word_count(body).0;
    if count <= size / 32 { 32 * count } else { size }
}

// The pixels of a word from the first on, as far as the part goes, one at a time. A row that ends with a word leaves none, which is told
// at once, since lines may be narrow.
fn put_last(w: u16, part: &mut [u8])
    ensures { part.new ≡ over (words_to_bytes (bits 16 w)) part.old }
{
    if part.is_empty() {
        return;
    }
    let mut pixels = [0u16; 16];
    put_bits(w, &mut pixels);
    store_words(&pixels, part);
}

// The weights of a byte's bits, the highest first, each with the weight 0 of its pixel's high byte; and all of them once more.
const TWICE: [u8; 32] = [
    128, 0, 64, 0, 32, 0, 16, 0, 8, 0, 4, 0, 2, 0, 1, 0, 128, 0, 64, 0, 32, 0, 16, 0, 8, 0, 4, 0,
    2, 0, 1, 0,
];

// The weights, out of one half or the other as for pixels of 16 bits. Made of those, byte by byte, they would be tested one by one.
fn kept_weights(n: usize) -> [u8; 16]
    ensures { result ≡ words_to_bytes (powers 8) }
{
    let twice = TWICE;
    let from = 16 * (n % 2);
    let end = from + 16;
    let mut weights = [0u8; 16];
    copy(&twice[from..end], &mut weights);
    weights
}

// The pixels of the word at byte i, those of its high byte first.
fn put_word(body: &[u8], i: usize, weights: &[u8; 16], part: &mut [u8])
    requires i_in_bounds { i + 2 ≤ length body.now }
    requires weights_value { weights.now ≡ words_to_bytes (powers 8) }
    requires part_len { length part.old ≡ 32 }
    ensures { part.new ≡ words_to_bytes (bits 16 (u16_at body.now i)) }
{
    let low = body[i];
    let high = body[i + 1];
    put_byte(high, weights, &mut part[..16]);
    put_byte(low, weights, &mut part[16..]);
}

// The pixels of a byte.
#[tactic(auto, using(packing::proofs::Laws::Weights::pick_steps))]
fn put_byte(b: u8, weights: &[u8; 16], part: &mut [u8])
    requires weights_len { length weights.now ≡ 16 }
    requires part_len { length part.old ≡ 16 }
    ensures { part.new ≡ picked b weights.now }
{
    for j in 0..16 {
        part[j] = bit(b, weights[j]);
    }
}

// The bit of a weight.
fn bit(b: u8, weight: u8) -> u8
    ensures { result ≡ pick b weight }
{
    if b & weight == 0 { 0 } else { 1 }
}
