// Turns the pixels on standard input and prints what came of it, for comparison with a second program.
//
// The input is seven little-endian numbers of 32 bits: 0 to turn or 1 to turn back, SLO, PPL, NOL, how many pixels are lent to
// be read and how many to be filled, 60,000 at most, and the value of 16 bits that those hold before; then the pixels that are
// read, two bytes each. Prints a line, `refused N` or `turned W H`, the sides of the upright picture, and then the pixels of the
// filled buffer as they are after the call, two bytes each. Without the seven numbers it prints `short`; else `too long` where
// one of them is above its limit; else `short` where pixels are missing.
#![tactic(auto)]

ghost use Rattle.std.specs.Prelude.{◌≤◌, length};

use orient::{PictureSize, picture_size, turn, turn_back};
use refusals::Rejection;
use std::io;
use text::{Text, read_full};
use units::{Words, load_words, store_words, u32_at, word_count, words_to_bytes};

fn main(rt: HostRuntime) -> io::Result<()> {
    let mut space = [0u8; 120028];
    let n = read_full(&mut rt.stdin(), &mut space)?;
    probe(&rt, &space[..n])
}

fn probe(rt: &impl Print, input: &[u8]) -> io::Result<()> {
    let mut read = [0u16; 60000];
    let mut filled = [0u16; 60000];
    if input.len() < 28 {
        return rt.write_all(b"short\n");
    }
    let n = u32_at(input, 16) as usize;
    let m = u32_at(input, 20) as usize;
    if read.len() < n || filled.len() < m {
        return rt.write_all(b"too long\n");
    }
    let read = &mut read[..n];
    let filled = &mut filled[..m];
    match u32_at(input, 0) {
        0 => turn_given(rt, turn, input, read, filled),
        1 => turn_given(rt, turn_back, input, read, filled),
        _ => rt.write_all(b"too long\n"),
    }
}

// The buffers are as long as is asked for.
fn turn_given<F: Fn(u32, u32, u32, &[u16], &mut [u16]) -> Result<(), Rejection>>(
    rt: &impl Print,
    step: F,
    input: &[u8],
    read: &mut [u16],
    filled: &mut [u16],
) -> io::Result<()>
    requires callable { F.IsAlwaysCallable step }
    requires numbers { 28 ≤ length input.now }
    requires room { length filled.old ≤ 60000 }
{
    let Ok(value) = u16::try_from(u32_at(input, 24)) else {
        return rt.write_all(b"too long\n");
    };
    let given = &input[28..];
    if word_count(given).0 < read.len() {
        return rt.write_all(b"short\n");
    }
    load_words(given, read);
    filled.fill(value);
    let slo = u32_at(input, 4);
    let ppl = u32_at(input, 8);
    let nol = u32_at(input, 12);
    let turned = step(slo, ppl, nol, read, filled).map(|()| picture_size(slo, ppl, nol));
    print_answer(rt, turned)?;
    print_pixels(rt, filled)
}

fn print_answer(rt: &impl Print, turned: Result<PictureSize, Rejection>) -> io::Result<()> {
    let mut line = Text::<64>::new();
    match turned {
        Err(rejection) => line.put_rejection(rejection),
        Ok(size) => {
            line.put_field(b"turned ", u64::from(size.width));
            line.put_field(b" ", u64::from(size.height));
            line.put(b"\n");
        }
    }
    rt.write_all(line.as_bytes())
}

fn print_pixels(rt: &impl Print, pixels: &[u16]) -> io::Result<()>
    requires { length pixels.now ≤ 60000 }
{
    let mut bytes = [0u8; 120000];
    store_words(pixels, &mut bytes);
    let n = words_to_bytes(Words(pixels.len())).0;
    rt.write_all(&bytes[..n])
}
