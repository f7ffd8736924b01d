// Fills and copies of slices, each one small loop or the library's `fill`, so that the compiler can store many places a turn.
//
// A copy goes as far as both slices do: what lies behind it in the buffer stays. Loops go by index, since a proof does not know what a
// `zip` over `iter_mut` leaves.
#![tactic(auto)]

ghost use Rattle.std.specs.Prelude.{◌≡◌, ◌+◌, min, max, length, replicate};
ghost use Rattle.std.proofs.lemmas.List.Edits.{sets};
ghost use Rattle.units.specs.Counts.{word_bytes};
ghost use Rattle.units.specs.LittleEndian.{low_bytes};
ghost use Rattle.units.specs.Over.{over, zeros};
ghost use Rattle.units.specs.Words.{words_to_bytes};

use units::{Words, fill_words, put_long, words_to_bytes};

// One value in every place of a row of pixels.
pub fn fill(row: &mut [u16], v: u16)
    ensures { row.new ≡ replicate (length row.old) v }
{
    row.fill(v);
}

// A run of one value in a row of pixels: n places from `at` on, as far as the row goes. Answers the place after it.
#[tactic(auto, using(units::proofs::Laws::Over::sets_past))]
pub fn put_run(row: &mut [u16], at: usize, n: usize, v: u16) -> usize
    ensures value { result ≡ min (at + n) (length row.old) }
    ensures row_after { row.new ≡ sets row.old at (replicate n v) }
{
    if row.len() <= at {
        return row.len();
    }
    let end = at + (row.len() - at).min(n);
    fill(&mut row[at..end], v);
    end
}

// The same where each pixel is stored as two bytes, low byte first: `at` and the answer are places of bytes. At least eight pixels are
// stored, as far as the row goes, so that a short run, of whatever length, is one store: the next run goes over what it has too much.
#[tactic(auto, using(units::proofs::Laws::Over::sets_past))]
pub fn put_run_bytes(row: &mut [u8], at: usize, n: usize, v: u16) -> usize
    ensures value { result ≡ min (at + word_bytes n) (length row.old) }
    ensures row_after { row.new ≡ sets row.old at (words_to_bytes (replicate (max n 8) v)) }
{
    if row.len() <= at {
        return row.len();
    }
    let room = row.len() - at;
    if n <= 8 && 16 <= room {
        let eight = at + 16;
        fill_eight(&mut row[at..eight], v);
        return at + words_to_bytes(Words(n)).0;
    }
    let end = at + words_to_bytes(Words(n.max(8))).0.min(room);
    fill_pixels(&mut row[at..end], v);
    at + words_to_bytes(Words(n)).0.min(room)
}

// One value in eight pixels: four of them are one number of 64 bits, and two such numbers are stored.
fn fill_eight(out: &mut [u8], v: u16)
    requires { length out.old ≡ 16 }
    ensures { out.new ≡ words_to_bytes (replicate 8 v) }
{
    let four = u64::from(v) * 0x0001000100010001;
    let low = (four % 4294967296) as u32;
    let high = (four / 4294967296) as u32;
    put_long(out, 0, low);
    put_long(out, 4, high);
    put_long(out, 8, low);
    put_long(out, 12, high);
}

// One value in every pixel of a row of bytes, as far as it goes. Zeros, the commonest, are cleared: that is the faster way.
fn fill_pixels(row: &mut [u8], v: u16)
    ensures { row.new ≡ over (words_to_bytes (replicate (length row.old) v)) row.old }
{
    if v == 0 {
        clear(row);
    } else {
        fill_words(row, v);
    }
}

// Bytes 0.
pub fn clear(out: &mut [u8])
    ensures { out.new ≡ zeros (length out.old) }
{
    out.fill(0);
}

// One value in every byte.
pub fn fill_bytes(out: &mut [u8], v: u8)
    ensures { out.new ≡ replicate (length out.old) v }
{
    out.fill(v);
}

// Bytes to bytes. A loop, which becomes a call of `memcpy`: the library's method calls `memmove`, one more name that a program in C would
// have to bring, and takes a quarter more time for whole rows.
#[tactic(auto, using(units::proofs::Laws::Over::putting))]
pub fn copy(from: &[u8], to: &mut [u8])
    ensures { to.new ≡ over from.now to.old }
{
    let n = from.len().min(to.len());
    for i in 0..n {
        to[i] = from[i];
    }
}

// Bytes to pixels.
#[tactic(auto, using(units::proofs::Laws::Over::putting))]
pub fn widen(from: &[u8], to: &mut [u16])
    ensures { to.new ≡ over from.now to.old }
{
    let n = from.len().min(to.len());
    for i in 0..n {
        to[i] = u16::from(from[i]);
    }
}

// The low bytes of pixels.
#[tactic(auto, using(units::proofs::Laws::Over::putting, units::proofs::Laws::LittleEndian::low_places))]
pub fn narrow(from: &[u16], to: &mut [u8])
    ensures { to.new ≡ over (low_bytes from.now) to.old }
{
    let n = from.len().min(to.len());
    for i in 0..n {
        to[i] = (from[i] % 256) as u8;
    }
}
