// The header of an Intergraph raster file: what reading it answers, and the rejections of a file.
//
// Nothing is asked of a file: each function decides for any slice of bytes. The raster data are not looked at.
#![tactic(auto)]

mod reading;
mod rejection;

pub use reading::{Header, Resolution, read_header};
pub use rejection::{entry_start, rejection_to_22, slot_at};
