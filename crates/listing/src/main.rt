// Lists the raster on standard input: a head and a row for each scanline, or the number that it is rejected with. An
// input of more than 32,768 bytes is `too long`.
#![tactic(auto)]

use decode_raster::{Reading, read_raster};
use fields::Fields;
use std::io;
use text::{Text, read_full};

// The whole listing: it has room for more than 8,192 pixels in 256 rows take.
type Page = Text<65536>;

fn main(rt: HostRuntime) -> io::Result<()> {
    let mut space = [0u8; 32769];
    let n = read_full(&mut rt.stdin(), &mut space)?;
    if 32768 < n {
        return rt.write_all(b"too long\n");
    }
    list(&rt, &space[..n])
}

// The buffers hold old pixels and marks on purpose: whatever the reading left as it was shows in the listing.
fn list(rt: &impl Print, file: &[u8]) -> io::Result<()> {
    let mut pixels = [65535u16; 8192];
    let mut marks = [255u8; 256];
    let reading = read_raster(file, &mut pixels, &mut marks);
    let mut page = Page::new();
    match reading {
        Err(rejection) => page.put_rejection(rejection),
        Ok(reading) => {
            let h = fields::fields_of(file);
            put_head(&mut page, h, reading);
            put_rows(&mut page, h, &pixels, &marks);
        }
    }
    rt.write_all(page.as_bytes())
}

// The answer is 0 where every scanline is good, else 1.
fn put_head(page: &mut Page, h: Fields, reading: Reading) {
    page.put_field(b"type ", u64::from(h.dtc));
    page.put_field(b" pixels ", u64::from(h.ppl));
    page.put_field(b" lines ", u64::from(h.nol));
    page.put_field(b" answer ", u64::from(!reading.whole));
    page.put_field(b" good ", u64::from(reading.good));
    page.put_field(b" end ", reading.end as u64);
    page.put(b"\n");
}

// Puts the rows, as far as the buffers have them.
fn put_rows(page: &mut Page, h: Fields, pixels: &[u16], marks: &[u8]) {
    let mut rest = pixels;
    for (line, &mark) in (1..=h.nol).zip(marks) {
        let Some((row, after)) = rest.split_at_checked(h.ppl as usize) else {
            return;
        };
        put_row(page, line, mark, row);
        rest = after;
    }
}

fn put_row(page: &mut Page, line: u32, mark: u8, row: &[u16]) {
    page.put_decimal(u64::from(line));
    page.put_field(b" ", u64::from(mark));
    page.put(b":");
    for &pixel in row {
        page.put_field(b" ", u64::from(pixel));
    }
    page.put(b"\n");
}
