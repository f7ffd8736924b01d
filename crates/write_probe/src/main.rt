// Writes the picture on standard input and prints what came of it, for comparison with a second writer.
//
// The input is ten little-endian numbers of 32 bits: data type, PPL, NOL, SLO, SCN, DRS in the low 16 bits, the length of
// the color table, the number of pixels, the room of the output, and the byte that the output holds before the call;
// then the table, then the pixels, two bytes each. Prints `refused N` or `written LENGTH` and then the whole output as it
// is after the call; `too long` or `short` where the input is.
#![tactic(auto)]

use encode_raster::write_raster;
use refusals::Rejection;
use std::io;
use text::{Text, read_full};
use units::{Bytes, byte_at, load_words, u16_at, u32_at, word_count};

fn main(rt: HostRuntime) -> io::Result<()> {
    let mut space = [0u8; 400001];
    let n = read_full(&mut rt.stdin(), &mut space)?;
    if 400000 < n {
        return rt.write_all(b"too long\n");
    }
    probe(&rt, &space[..n])
}

// The pixels and the output have room for the most that is taken.
fn probe(rt: &impl Print, input: &[u8]) -> io::Result<()> {
    let mut pixels = [0u16; 150000];
    let mut out = [0u8; 400000];
    if input.len() < 40 {
        return rt.write_all(b"short\n");
    }
    let table = u32_at(input, 24) as usize;
    let count = u32_at(input, 28) as usize;
    let room = u32_at(input, 32) as usize;
    if 2000 < table || pixels.len() < count || out.len() < room {
        return rt.write_all(b"too long\n");
    }
    let Some((table, given)) = input[40..].split_at_checked(table) else {
        return rt.write_all(b"short\n");
    };
    if word_count(given).0 < count {
        return rt.write_all(b"short\n");
    }
    let pixels = &mut pixels[..count];
    let out = &mut out[..room];
    load_words(given, pixels);
    out.fill(byte_at(input, 36));
    write_given(rt, input, table, pixels, out)
}

fn write_given(
    rt: &impl Print,
    input: &[u8],
    table: &[u8],
    pixels: &[u16],
    out: &mut [u8],
) -> io::Result<()> {
    let written = write_raster(
        u32_at(input, 0),
        u32_at(input, 4),
        u32_at(input, 8),
        u32_at(input, 12),
        u32_at(input, 16),
        u16_at(input, 20),
        table,
        pixels,
        out,
    );
    print_answer(rt, written)?;
    rt.write_all(out)
}

fn print_answer(rt: &impl Print, written: Result<Bytes, Rejection>) -> io::Result<()> {
    let mut line = Text::<64>::new();
    match written {
        Err(rejection) => line.put_rejection(rejection),
        Ok(size) => {
            line.put_field(b"written ", size.0 as u64);
            line.put(b"\n");
        }
    }
    rt.write_all(line.as_bytes())
}
