// The turning of a sheet that was scanned from any corner, by rows or by columns, into an upright picture, and back.
//
// A rejected call changes nothing. Otherwise the picture's places are filled, and what lies past them is left as it was. The
// turning knows nothing of files: it takes the pixels of a reading, and its orientation.
#![tactic(auto)]

ghost use Rattle.std.specs.Prelude.{◌≡◌, cond, length, ltb};
ghost use Rattle.refusals.specs.Rejections.{number_of, rejected_by};
ghost use Rattle.orient.specs.Orientation.{bit_set, width, height};
ghost use Rattle.orient.specs.Turning.{turn_rejection, upright_after, pixels_after};

use limits::{nol_rejection, ppl_rejection, slo_rejection};
use moves::move_pixels;
use refusals::Rejection;

// The bits of the orientation (SLO): the first pixel is at the right, and at the bottom; lines are rows.
const AT_RIGHT: u32 = 1;

const AT_BOTTOM: u32 = 2;

const LINES_ARE_ROWS: u32 = 4;

// Both ways take the orientation and the sides as three numbers, as the C interface does. Each moves the pixels itself: they differ in
// the move of columns alone, and a switch between the two moves is no plainer.

// Turns a sheet of nol lines of ppl pixels into the upright picture.
pub fn turn(
    slo: u32,
    ppl: u32,
    nol: u32,
    pixels: &[u16],
    upright: &mut [u16],
) -> Result<(), Rejection>
    ensures value { rejected_by result ≡ turn_rejection slo ppl nol (length pixels.now) (length upright.old) }
    ensures upright_after { upright.new ≡ upright_after slo ppl nol pixels.now upright.old }
{
    turn_rejection(slo, ppl, nol, pixels.len(), upright.len())?;
    let right = bit_set(AT_RIGHT, slo);
    let bottom = bit_set(AT_BOTTOM, slo);
    if bit_set(LINES_ARE_ROWS, slo) {
        move_pixels(false, right, bottom, ppl, nol, pixels, upright);
    } else {
        move_pixels(true, right, bottom, nol, ppl, pixels, upright);
    }
    Ok(())
}

// Turns an upright picture back into the sheet of nol lines of ppl pixels. To columns the sides, and what they are mirrored by, are
// exchanged.
pub fn turn_back(
    slo: u32,
    ppl: u32,
    nol: u32,
    upright: &[u16],
    pixels: &mut [u16],
) -> Result<(), Rejection>
    ensures value { rejected_by result ≡ turn_rejection slo ppl nol (length upright.now) (length pixels.old) }
    ensures pixels_after { pixels.new ≡ pixels_after slo ppl nol upright.now pixels.old }
{
    turn_rejection(slo, ppl, nol, upright.len(), pixels.len())?;
    let right = bit_set(AT_RIGHT, slo);
    let bottom = bit_set(AT_BOTTOM, slo);
    if bit_set(LINES_ARE_ROWS, slo) {
        move_pixels(false, right, bottom, ppl, nol, upright, pixels);
    } else {
        move_pixels(true, bottom, right, ppl, nol, upright, pixels);
    }
    Ok(())
}

// The sides of the upright picture, in pixels.
#[derive(Clone, Copy, Debug, PartialEq, Eq)]
pub struct PictureSize {
    pub width: u32,
    pub height: u32,
}

// The sides that a sheet of nol lines of ppl pixels has when it is upright.
pub fn picture_size(slo: u32, ppl: u32, nol: u32) -> PictureSize
    ensures width_value { result.width ≡ width slo ppl nol }
    ensures height_value { result.height ≡ height slo ppl nol }
{
    if bit_set(LINES_ARE_ROWS, slo) {
        return PictureSize {
            width: ppl,
            height: nol,
        };
    }
    PictureSize {
        width: nol,
        height: ppl,
    }
}

// The rejection of a call, where a buffer of `read` pixels is read and one of `filled` pixels is filled.
#[tactic(auto, unfolding(crate::specs::Turning::turn_rejection))]
fn turn_rejection(slo: u32, ppl: u32, nol: u32, read: usize, filled: usize) -> Result<(), Rejection>
    ensures { rejected_by result ≡ turn_rejection slo ppl nol read filled }
{
    slo_rejection(slo)?;
    ppl_rejection(ppl)?;
    nol_rejection(nol)?;
    let size = (nol as usize) * (ppl as usize);
    shorter(read, size, Rejection::PixelRoom)?;
    shorter(filled, size, Rejection::UprightRoom)
}

// The rejection where a buffer is shorter than the picture.
fn shorter(length: usize, size: usize, rejection: Rejection) -> Result<(), Rejection>
    ensures { rejected_by result ≡ cond (ltb length size) (number_of rejection) 0 }
{
    if length < size {
        Err(rejection)
    } else {
        Ok(())
    }
}

// Whether the bit of the orientation is set that the mask has.
#[tactic(auto, unfolding(crate::specs::Orientation::bit_set))]
fn bit_set(mask: u32, slo: u32) -> bool
    ensures { result ≡ bit_set mask slo }
{
    slo & mask != 0
}
