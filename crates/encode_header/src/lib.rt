// The header of a raster file, written: its bytes are fixed by the fields and the color table that are given.
#![tactic(auto)]

mod head;
mod resolution;

pub use head::{header_size, write_header};
pub use resolution::drs_bits;

// What is written, within the format's limits: the fields by the format's names, DRS as its 16 stored bits.
#[derive(Clone, Copy, Debug, PartialEq, Eq)]
pub struct Job {
    pub dtc: u16,
    pub ppl: u32,
    pub nol: u32,
    pub slo: u8,
    pub scn: u8,
    pub drs: u16,
}
