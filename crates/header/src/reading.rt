// What reading a header answers.
ghost use Rattle.std.specs.Prelude.{◌≡◌};
ghost use Rattle.fields.specs.Fields.{header_blocks};
ghost use Rattle.header.specs.Resolution.{resolution_numbers, resolution_of};
ghost use Rattle.header.specs.Reading.{header_numbers, header_reading};

use crate::rejection::rejection_to_22;
use fields::{Fields, fields_of, header_blocks};
use refusals::Rejection;
use units::Blocks;

#[derive(Clone, Copy, Debug, PartialEq, Eq)]
pub enum Resolution {
    Unspecified,
    Microns(u16),
    DotsPerInch(u16),
}

#[derive(Clone, Copy, Debug, PartialEq, Eq)]
pub struct Header {
    pub data_type: u16,
    pub blocks: Blocks,
    pub ppl: u32,
    pub nol: u32,
    pub resolution: Resolution,
    pub slo: u8,
    pub scn: u8,
    pub ctv: u16,
    pub cte: u32,
}

// Reads the header of a file, or says why the file is rejected.
pub fn read_header(file: &[u8]) -> Result<Header, Rejection>
    ensures { header_numbers result ≡ header_reading file.now }
{
    rejection_to_22(file)?;
    let h = fields_of(file);
    Ok(Header {
        data_type: h.dtc,
        blocks: header_blocks(file),
        ppl: h.ppl,
        nol: h.nol,
        resolution: resolution_of(h.drs),
        slo: h.slo,
        scn: h.scn,
        ctv: h.ctv,
        cte: h.cte,
    })
}

// What a stored DRS says. It is a signed number; its size as dots per inch may be 32,768.
fn resolution_of(drs: u16) -> Resolution
    ensures { resolution_numbers result ≡ resolution_of drs }
{
    if drs == 0 {
        return Resolution::Unspecified;
    }
    if drs < 32768 {
        return Resolution::Microns(drs);
    }
    Resolution::DotsPerInch((65536 - u32::from(drs)) as u16)
}
