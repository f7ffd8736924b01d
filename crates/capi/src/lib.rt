// The library for programs in C: reading a header, a raster and a color, writing a raster, moving one to another data type, and turning
// one.
//
// Each function is one call of the library, on numbers and slices. The result is the paper's answer number. Its other numbers are
// stored in the answer slice, four bytes each, low byte first. A rejected call changes no byte that it is lent, and the first rejection
// is 29, for an answer slice that is too short.
#![tactic(auto)]

ghost use Rattle.std.specs.Prelude.{◌≡◌, ◌%◌, ◌≤◌, ◌<◌, ◌^◌, cond, length, replicate, IfOk};
ghost use Rattle.refusals.specs.Rejections.{number_of, rejected_by};
ghost use Rattle.units.specs.Over.{over};
ghost use Rattle.header.specs.Resolution.{resolution_numbers};
ghost use Rattle.header.specs.Reading.{header_numbers};
ghost use Rattle.color.specs.Color.{color_numbers};
ghost use Rattle.layout.specs.PixelBytes.{pixel_bytes_after, byte_marks_after};
ghost use Rattle.orient.specs.Turning.{turn_rejection, upright_after, pixels_after};
ghost use Rattle.decode_raster.specs.Answer.{raster_numbers};
ghost use Rattle.encode_answer.specs.Answer.{write_numbers};
ghost use Rattle.encode_raster.specs.Writing.{out_after};
ghost use Rattle.encode_raster.specs.Answer.{picture};
ghost use Rattle.transcode.specs.Transcoding.{out_transcoded};
ghost use Rattle.answers.specs.Answer.{number_bytes, is_rejection, result_of, answer_after, unless_short};
ghost use Rattle.capi.specs.Calls.{header_size, header_call, c_header, raster_size, raster_call, c_raster, color_size, color_call, c_color, c_plotter_color, write_size, write_call, c_write, c_move};
ghost use Rattle.capi.specs.Laws.Outcome.{call_of};

use answers::store_numbers;
use color::{Rgb, color_of, plotter_color_of};
use decode_raster::Reading;
use decode_raster_bytes::read_raster_bytes;
use encode_raster::write_raster;
use header::{Header, Resolution, read_header};
use orient::{turn, turn_back};
use refusals::{Rejection, number};
use transcode::transcode;
use units::Bytes;

// The bytes of each call's numbers, and the rejection of a slice that is shorter.
const HEADER_SIZE: usize = 40;

const RASTER_SIZE: usize = 8;

const COLOR_SIZE: usize = 12;

const WRITE_SIZE: usize = 4;

const TOO_SHORT: Rejection = Rejection::AnswerRoom;

// The results of calls that are not rejected: all is well, or some scanline is refused.
const WELL: u32 = 0;

const DAMAGED: u32 = 1;

// What a call comes to: its result, and the numbers that are stored where it is not rejected.
#[derive(Clone, Copy)]
struct Outcome<const N: usize> {
    result: u32,
    numbers: [u32; N],
    ghost told: { 1 < result → 10 ≤ result },
}

impl<const N: usize> Outcome<N> {
    // A rejected call has zeros in place of its numbers.
    fn rejected(rejection: Rejection) -> Outcome<N>
        ensures number { result.result ≡ number_of rejection }
        ensures zeros { result.numbers ≡ replicate N 0 }
    {
        Outcome {
            result: u32::from(rejection),
            numbers: [0; N],
        }
    }

    // Stores the numbers of a call that is not rejected, and answers its result.
    fn store(self, answer: &mut [u8]) -> u32
        ensures value { result ≡ self.entry.result }
        ensures answer_after { answer.new ≡ cond (is_rejection self.entry.result) answer.old (over (number_bytes self.entry.numbers) answer.old) }
    {
        if DAMAGED < self.result {
            return self.result;
        }
        store_numbers(&self.numbers, answer);
        self.result
    }
}

// Reads the header of a file.
pub fn ingr_header(file: &[u8], answer: &mut [u8]) -> u32
    ensures value { result ≡ result_of header_size (c_header file.now) answer.old }
    ensures answer_after { answer.new ≡ answer_after header_size (c_header file.now) answer.old }
{
    if answer.len() < HEADER_SIZE {
        return u32::from(TOO_SHORT);
    }
    of_header(read_header(file)).store(answer)
}

// The fields of a header in the paper's order.
fn of_header(read: Result<Header, Rejection>) -> Outcome<10>
    ensures { call_of result.result result.numbers ≡ header_call (header_numbers read) }
{
    match read {
        Err(rejection) => Outcome::rejected(rejection),
        Ok(h) => {
            let (kind, size) = resolution_numbers(h.resolution);
            Outcome {
                result: WELL,
                numbers: [
                    u32::from(h.data_type),
                    u32::from(h.blocks.0),
                    h.ppl,
                    h.nol,
                    kind,
                    size,
                    u32::from(h.slo),
                    u32::from(h.scn),
                    u32::from(h.ctv),
                    h.cte,
                ],
            }
        }
    }
}

// 0 none, 1 microns, 2 dots per inch; and how many
fn resolution_numbers(r: Resolution) -> (u32, u32)
    ensures kind { result.0 ≡ (resolution_numbers r).kind }
    ensures size { result.1 ≡ (resolution_numbers r).size }
{
    match r {
        Resolution::Unspecified => (0, 0),
        Resolution::Microns(size) => (1, u32::from(size)),
        Resolution::DotsPerInch(size) => (2, u32::from(size)),
    }
}

// The color of a pixel value in a file, as it is shown.
pub fn ingr_color(file: &[u8], value: u32, answer: &mut [u8]) -> u32
    ensures value { result ≡ result_of color_size (c_color file.now value) answer.old }
    ensures answer_after { answer.new ≡ answer_after color_size (c_color file.now value) answer.old }
{
    if answer.len() < COLOR_SIZE {
        return u32::from(TOO_SHORT);
    }
    of_color(color_of(file, value)).store(answer)
}

// The color of a pixel value for the grayscale plotter.
pub fn ingr_plotter_color(file: &[u8], value: u32, answer: &mut [u8]) -> u32
    ensures value { result ≡ result_of color_size (c_plotter_color file.now value) answer.old }
    ensures answer_after { answer.new ≡ answer_after color_size (c_plotter_color file.now value) answer.old }
{
    if answer.len() < COLOR_SIZE {
        return u32::from(TOO_SHORT);
    }
    of_color(plotter_color_of(file, value)).store(answer)
}

fn of_color(found: Result<Rgb, Rejection>) -> Outcome<3>
    ensures { call_of result.result result.numbers ≡ color_call (color_numbers found) }
{
    match found {
        Err(rejection) => Outcome::rejected(rejection),
        Ok(c) => Outcome {
            result: WELL,
            numbers: [u32::from(c.red), u32::from(c.green), u32::from(c.blue)],
        },
    }
}

// Reads the raster of a file: pixels as two bytes each, low byte first, row after row, and a status for each scanline.
pub fn ingr_raster(file: &[u8], pixels: &mut [u8], marks: &mut [u8], answer: &mut [u8]) -> u32
    ensures value { result ≡ result_of raster_size (c_raster file.now pixels.old marks.old) answer.old }
    ensures answer_after { answer.new ≡ answer_after raster_size (c_raster file.now pixels.old marks.old) answer.old }
    ensures pixels_after { pixels.new ≡ unless_short raster_size answer.old pixels.old (pixel_bytes_after file.now pixels.old marks.old) }
    ensures marks_after { marks.new ≡ unless_short raster_size answer.old marks.old (byte_marks_after file.now pixels.old marks.old) }
{
    if answer.len() < RASTER_SIZE {
        return u32::from(TOO_SHORT);
    }
    let read = read_raster_bytes(file, pixels, marks);
    of_raster(read).store(answer)
}

// The good scanlines, and the end, which lies within a file.
fn of_raster(read: Result<Reading, Rejection>) -> Outcome<2>
    requires { IfOk read (λ r. r.end < 2 ^ 32) }
    ensures { call_of result.result result.numbers ≡ raster_call (raster_numbers read) }
{
    match read {
        Err(rejection) => Outcome::rejected(rejection),
        Ok(read) => Outcome {
            result: if read.whole { WELL } else { DAMAGED },
            numbers: [read.good, read.end as u32],
        },
    }
}

// Turns a sheet of nol lines of ppl pixels into the upright picture.
pub fn ingr_turn(slo: u32, ppl: u32, nol: u32, pixels: &[u16], upright: &mut [u16]) -> u32
    ensures value { result ≡ turn_rejection slo ppl nol (length pixels.now) (length upright.old) }
    ensures upright_after { upright.new ≡ upright_after slo ppl nol pixels.now upright.old }
{
    number(turn(slo, ppl, nol, pixels, upright))
}

// Turns an upright picture back into the sheet of nol lines of ppl pixels.
pub fn ingr_turn_back(slo: u32, ppl: u32, nol: u32, upright: &[u16], pixels: &mut [u16]) -> u32
    ensures value { result ≡ turn_rejection slo ppl nol (length upright.now) (length pixels.old) }
    ensures pixels_after { pixels.new ≡ pixels_after slo ppl nol upright.now pixels.old }
{
    number(turn_back(slo, ppl, nol, upright, pixels))
}

// Writes a file: the fields by the format's names, DRS as the low 16 bits of a number of two's complement, a color table of 0 or 768
// bytes, and the pixels row after row.
pub fn ingr_write(
    dtc: u32,
    ppl: u32,
    nol: u32,
    slo: u32,
    scn: u32,
    drs: u32,
    table: &[u8],
    pixels: &[u16],
    out: &mut [u8],
    answer: &mut [u8],
) -> u32
    ensures value { result ≡ result_of write_size (c_write (picture dtc ppl nol slo scn (drs % 65536) table.now pixels.now) (length out.old)) answer.old }
    ensures answer_after { answer.new ≡ answer_after write_size (c_write (picture dtc ppl nol slo scn (drs % 65536) table.now pixels.now) (length out.old)) answer.old }
    ensures out_after { out.new ≡ unless_short write_size answer.old out.old (out_after (picture dtc ppl nol slo scn (drs % 65536) table.now pixels.now) out.old) }
{
    if answer.len() < WRITE_SIZE {
        return u32::from(TOO_SHORT);
    }
    let bits = (drs % 65536) as u16;
    let written = write_raster(dtc, ppl, nol, slo, scn, bits, table, pixels, out);
    of_written(written).store(answer)
}

// Moves the raster of a file from data type 1 to type 9, or from type 9 to type 1.
pub fn ingr_move(file: &[u8], out: &mut [u8], answer: &mut [u8]) -> u32
    ensures value { result ≡ result_of write_size (c_move file.now (length out.old)) answer.old }
    ensures answer_after { answer.new ≡ answer_after write_size (c_move file.now (length out.old)) answer.old }
    ensures out_after { out.new ≡ unless_short write_size answer.old out.old (out_transcoded file.now out.old) }
{
    if answer.len() < WRITE_SIZE {
        return u32::from(TOO_SHORT);
    }
    of_written(transcode(file, out)).store(answer)
}

// The length of what a call has written, which fits 31 bits.
fn of_written(written: Result<Bytes, Rejection>) -> Outcome<1>
    requires { IfOk written (λ size. size.0 < 2 ^ 32) }
    ensures { call_of result.result result.numbers ≡ write_call (write_numbers written) }
{
    match written {
        Err(rejection) => Outcome::rejected(rejection),
        Ok(size) => {
            let length = size.0 as u32;
            Outcome {
                result: WELL,
                numbers: [length],
            }
        }
    }
}
