// Prints the header of the file on standard input, and the colors that the values 0 to 300 and 65,535 are shown in; or the
// number that it is rejected with. An input of more than 140,000 bytes is `too long`.
#![tactic(auto)]

use color::Rgb;
use header::{Header, Resolution};
use std::io;
use text::{Text, read_full};

// All that is printed: it has room for more.
type Page = Text<16384>;

fn main(rt: HostRuntime) -> io::Result<()> {
    let mut space = [0u8; 140001];
    let n = read_full(&mut rt.stdin(), &mut space)?;
    if 140000 < n {
        return rt.write_all(b"too long\n");
    }
    show(&rt, &space[..n])
}

fn show(rt: &impl Print, file: &[u8]) -> io::Result<()> {
    let mut page = Page::new();
    match header::read_header(file) {
        Err(rejection) => page.put_rejection(rejection),
        Ok(h) => {
            put_header(&mut page, h);
            put_colors(&mut page, file);
        }
    }
    rt.write_all(page.as_bytes())
}

fn put_header(page: &mut Page, h: Header) {
    page.put_field(b"type ", u64::from(h.data_type));
    page.put_field(b" blocks ", u64::from(h.blocks.0));
    page.put_field(b" pixels ", u64::from(h.ppl));
    page.put_field(b" lines ", u64::from(h.nol));
    put_resolution(page, h.resolution);
    page.put_field(b" slo ", u64::from(h.slo));
    page.put_field(b" scn ", u64::from(h.scn));
    page.put_field(b" ctv ", u64::from(h.ctv));
    page.put_field(b" cte ", u64::from(h.cte));
    page.put(b"\n");
}

fn put_resolution(page: &mut Page, resolution: Resolution) {
    match resolution {
        Resolution::Unspecified => page.put(b" resolution 0 0"),
        Resolution::Microns(n) => page.put_field(b" resolution 1 ", u64::from(n)),
        Resolution::DotsPerInch(n) => page.put_field(b" resolution 2 ", u64::from(n)),
    }
}

fn put_colors(page: &mut Page, file: &[u8]) {
    for value in 0..=300 {
        put_color(page, file, value);
    }
    put_color(page, file, 65535);
}

fn put_color(page: &mut Page, file: &[u8], value: u32) {
    page.put_decimal(u64::from(value));
    page.put(b": ");
    match color::color_of(file, value) {
        Err(rejection) => page.put_rejection(rejection),
        Ok(c) => put_rgb(page, c),
    }
}

fn put_rgb(page: &mut Page, c: Rgb) {
    page.put_decimal(u64::from(c.red));
    page.put_field(b" ", u64::from(c.green));
    page.put_field(b" ", u64::from(c.blue));
    page.put(b"\n");
}
