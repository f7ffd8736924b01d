// The bodies of scanlines, read by data type: `by_type` tells them apart. Types 2 and 3 are here, and types 1, 9 and 10 in
// crates of their own.
//
// A body is checked whole before a pixel is stored. Its status is the paper's mark, 0 where it holds a row's pixels. There is one
// check for a body of known length, within a scanline that has a header, and one for a scanline without a header, which says
// what it takes of the bytes that are left. Painting comes after either: it stores pixels of 16 bits, or two bytes for each.
#![tactic(auto)]

mod by_type;
mod byte_pixels;
mod word_pixels;

pub use by_type::{body_extent, body_status, paint_body, paint_body_bytes};
