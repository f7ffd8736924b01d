// The color of a pixel value in a file: by its color table, and without one ink on paper or a shade of gray. A rejection is a
// file's, or `NoColor` where the value has no color.
#![tactic(auto)]

ghost use Rattle.std.specs.Prelude.{◌≡◌, cond};
ghost use Rattle.fields.specs.Fields.{fields_of};
ghost use Rattle.header.specs.Rejections.{rejection_to22};
ghost use Rattle.color.specs.Color.{color_numbers, color_reading, plotter_reading, is_inked, ink_color, table_color, even_color, gray_color, igds_color, environ_color, entry_color};

use fields::{Fields, fields_of};
use header::{entry_start, rejection_to_22, slot_at};
use refusals::Rejection;
use units::{byte_at, u16_at};

#[derive(Clone, Copy, Debug, PartialEq, Eq)]
pub struct Rgb {
    pub red: u16,
    pub green: u16,
    pub blue: u16,
}

// A part c of one byte is 256c in 16 bits: the scale of colors, and no unit of the format.
const SCALE: u16 = 256;

const PAPER: u16 = 65535;

const INK: u16 = 0;

// The color of a pixel value in a file, as it is shown: a bi-level file without a table is ink on paper.
pub fn color_of(file: &[u8], value: u32) -> Result<Rgb, Rejection>
    ensures { color_numbers result ≡ color_reading file.now value }
{
    color_by(true, file, value)
}

// The color of a pixel value for the grayscale plotter: without a table every file has shades of gray.
pub fn plotter_color_of(file: &[u8], value: u32) -> Result<Rgb, Rejection>
    ensures { color_numbers result ≡ plotter_reading file.now value }
{
    color_by(false, file, value)
}

// Both colors, so that their rejections are the same: `ink` says whether ink on paper is wanted.
fn color_by(ink: bool, file: &[u8], value: u32) -> Result<Rgb, Rejection>
    ensures { color_numbers result ≡ cond ink (color_reading file.now value) (plotter_reading file.now value) }
{
    rejection_to_22(file)?;
    let h = fields_of(file);
    if ink && is_inked(h.dtc, h.ctv) {
        return ink_color(value);
    }
    table_color(h, file, value)
}

// Whether a data type and a kind of color table are those of ink on paper: bi-level, and no table.
fn is_inked(dtc: u16, ctv: u16) -> bool
    ensures { result ≡ is_inked dtc ctv }
{
    ctv == 0 && (dtc == 1 || dtc == 9)
}

// Black ink on white paper.
fn ink_color(value: u32) -> Result<Rgb, Rejection>
    ensures { color_numbers result ≡ ink_color value }
{
    if value == 0 {
        return Ok(even_color(PAPER));
    }
    if value != 1 {
        return Err(Rejection::NoColor);
    }
    Ok(even_color(INK))
}

// A color of three parts that are the same.
fn even_color(part: u16) -> Rgb
    ensures { color_numbers (Ok result) ≡ even_color part }
{
    Rgb {
        red: part,
        green: part,
        blue: part,
    }
}

// The color by the table of a file that is not rejected and has these fields.
fn table_color(h: Fields, file: &[u8], value: u32) -> Result<Rgb, Rejection>
    requires file_value { rejection_to22 file.now ≡ 0 }
    requires h_value { h ≡ fields_of file.now }
    ensures { color_numbers result ≡ table_color file.now value }
{
    if h.ctv == 0 {
        return gray_color(value);
    }
    if h.ctv == 1 {
        return igds_color(file, value);
    }
    environ_color(file, h.cte as u16, value)
}

// The colors of a file without a table: shades of gray.
fn gray_color(value: u32) -> Result<Rgb, Rejection>
    ensures { color_numbers result ≡ gray_color value }
{
    if 255 < value {
        return Err(Rejection::NoColor);
    }
    Ok(even_color(SCALE * (value as u16)))
}

fn igds_color(file: &[u8], value: u32) -> Result<Rgb, Rejection>
    ensures { color_numbers result ≡ igds_color file.now value }
{
    if 255 < value {
        return Err(Rejection::NoColor);
    }
    let at = 768 + 3 * (value as usize);
    Ok(Rgb {
        red: SCALE * u16::from(byte_at(file, at)),
        green: SCALE * u16::from(byte_at(file, at + 1)),
        blue: SCALE * u16::from(byte_at(file, at + 2)),
    })
}

// The color of the first entry that has the value as its slot.
fn environ_color(file: &[u8], cte: u16, value: u32) -> Result<Rgb, Rejection>
    ensures { color_numbers result ≡ environ_color file.now cte value }
{
    match (0..cte).find(|i| u32::from(slot_at(file, *i)) == value) {
        Some(i) => Ok(entry_color(file, i)),
        None => Err(Rejection::NoColor),
    }
}

// The color of entry i, from 0: the three words after its slot.
fn entry_color(file: &[u8], i: u16) -> Rgb
    ensures { color_numbers (Ok result) ≡ entry_color file.now i }
{
    let at = entry_start(i);
    Rgb {
        red: u16_at(file, at + 2),
        green: u16_at(file, at + 4),
        blue: u16_at(file, at + 6),
    }
}
