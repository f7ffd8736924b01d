// A raster moved from data type 1 to type 9, or from type 9 to type 1, by its own type (the paper's move).
//
// A rejected call changes nothing. Otherwise the new file is put at the start of the output, and what lies behind it is left as it was.
// All of it is known before a byte is stored: the scanlines are gone through once to survey them and once to write them. No pixels are
// lent, so one row stands on the stack.
#![tactic(auto)]

ghost use Rattle.std.specs.Prelude.{◌≡◌, ◌++◌, length, drop, IfOk};
ghost use Rattle.refusals.specs.Faults.{status_of};
ghost use Rattle.refusals.specs.Rejections.{rejected_by};
ghost use Rattle.units.specs.Rules.{first};
ghost use Rattle.limits.specs.Limits.{most_pixels};
ghost use Rattle.header.specs.Rejections.{rules_to22};
ghost use Rattle.layout.specs.Scanline.{head_of, reading_of};
ghost use Rattle.layout.specs.Chain.{sheet_of, raster_of};
ghost use Rattle.encode_answer.specs.Sizes.{answer_by};
ghost use Rattle.encode_answer.specs.Answer.{write_numbers};
ghost use Rattle.transcode_parts.specs.Rules.{unmoved_rules};
ghost use Rattle.transcode.specs.File.{new_line, new_lines};
ghost use Rattle.transcode.specs.Transcoding.{line_rules, transcoding, out_transcoded};
ghost use Rattle.transcode.specs.Laws.Answer.{old_row, new_size, Movable, Ready, IsSurvey, Surveyed, LineFits, IsWritten, LinesFit};

use decode_scanline::read_scanline;
use encode_answer::or_long;
use encode_body::{body_size, write_body};
use header::rejection_to_22;
use layout::{RasterLayout, sheet_layout};
use numbering::number_line;
use refusals::{Fault, Rejection};
use scan_scanline::{body_start, first_column};
use transcode_parts::{answer_by_lines, carry_header, fit_header, other_type, unmoved_type};
use units::{Bytes, bytes_to_words};

// What the scanlines are, of which the first that is refused ends the survey: whether one starts partway, whether a new body is too long
// for a scanline header to count, and the bytes of all new scanlines. `refused` is a flag among others, since one function gives 41 and 42.
#[derive(Clone, Copy, Debug, PartialEq, Eq)]
pub struct Survey {
    pub refused: bool,
    pub partway: bool,
    pub long: bool,
    pub size: Bytes,
}

// How many bytes on the scanline after a good one starts, whether it starts partway, and the bytes of its new body.
#[derive(Clone, Copy, Debug, PartialEq, Eq)]
pub struct LineSurvey {
    pub used: Bytes,
    pub partway: bool,
    pub body: Bytes,
}

// How many bytes on the next scanline starts in the old raster and in the new one.
#[derive(Clone, Copy, Debug, PartialEq, Eq)]
pub struct LineSizes {
    pub used: Bytes,
    pub size: Bytes,
}

// Moves the raster of a file to the other type, and answers the new file's length.
pub fn transcode(file: &[u8], out: &mut [u8]) -> Result<Bytes, Rejection>
    ensures result_value { write_numbers result ≡ transcoding file.now (length out.old) }
    ensures out_after { out.new ≡ out_transcoded file.now out.old }
{
    let mut pixels = [0u16; 65535];
    transcode_by(file, &mut pixels, out)
}

// The same by way of pixels that hold the widest row there is.
fn transcode_by(file: &[u8], pixels: &mut [u16], out: &mut [u8]) -> Result<Bytes, Rejection>
    requires { length pixels.old ≡ most_pixels }
    ensures result_value { write_numbers result ≡ transcoding file.now (length out.old) }
    ensures out_after { out.new ≡ out_transcoded file.now out.old }
{
    file_rejection(file)?;
    let sheet = sheet_layout(file);
    let p = sheet.ppl as usize;
    transcode_sheet(file, sheet, &mut pixels[..p], out)
}

// The same of a file that is not rejected, by way of one row.
fn transcode_sheet(
    file: &[u8],
    l: RasterLayout,
    row: &mut [u16],
    out: &mut [u8],
) -> Result<Bytes, Rejection>
    requires { Movable file.now l row.old }
    ensures result_value { write_numbers result ≡ transcoding file.now (length out.old) }
    ensures out_after { out.new ≡ out_transcoded file.now out.old }
{
    let size = plan_file(l, out.len(), row)?;
    let start = l.start;
    carry_header(&file[..start], other_type(l.dtc), out);
    write_lines(l, row, &mut out[start..]);
    Ok(size)
}

// 10 to 22, and 30 for a data type other than 1 and 9.
fn file_rejection(file: &[u8]) -> Result<(), Rejection>
    ensures { rejected_by result ≡ first (rules_to22 file.now ++ unmoved_rules (sheet_of file.now).data_type) }
{
    rejection_to_22(file)?;
    let sheet = sheet_layout(file);
    unmoved_type(sheet.dtc)
}

// The new file's length for an output of `room`, or 41, 42, 27, 10 or 28.
fn plan_file(l: RasterLayout, room: usize, row: &mut [u16]) -> Result<Bytes, Rejection>
    requires { Ready (raster_of l) row.old }
    ensures result_value { write_numbers result ≡ answer_by (first (line_rules (raster_of l.entry) (new_size (raster_of l.entry)) room)) (new_size (raster_of l.entry)) }
    ensures row_len_unchanged { length row.new ≡ length row.old }
{
    let lines = survey_lines(l, row);
    let size = l.start + lines.size.0;
    answer_by_lines(l.scn, lines.refused, lines.partway, lines.long, size, room)
}

// Goes through the scanlines before one is written.
fn survey_lines(l: RasterLayout, row: &mut [u16]) -> Survey
    requires { Ready (raster_of l) row.old }
    ensures surveyed { Surveyed (raster_of l.entry) result }
    ensures row_len_unchanged { length row.new ≡ length row.old }
{
    let to = other_type(l.dtc);
    let head = body_start(l.scn);
    let mut at = l.start;
    let mut rollover = 0;
    let mut partway = false;
    let mut long = false;
    let mut size = 0;
    for k in 0..l.nol as usize {
        let rest = &l.bytes[at..];
        let numbered = number_line(rollover, k, rest);
        let Ok(line) = survey_line(rest, l, numbered.number, to, row) else {
            return Survey {
                refused: true,
                partway,
                long,
                size: Bytes(size),
            };
        };
        partway = partway || line.partway;
        long = or_long(long, bytes_to_words(line.body));
        size += head + line.body.0;
        at += line.used.0;
        rollover = numbered.rollover;
    }
    Survey {
        refused: false,
        partway,
        long,
        size: Bytes(size),
    }
}

// Surveys a scanline in the bytes that are left. `number` is the line number that its header must have, and `to` the new data type.
fn survey_line(
    rest: &[u8],
    l: RasterLayout,
    number: u16,
    to: u16,
    row: &mut [u16],
) -> Result<LineSurvey, Fault>
    ensures status { status_of result ≡ (reading_of l.entry.scn l.entry.dtc (length row.old) number rest.now).status }
    ensures survey { IfOk result (λ s. IsSurvey l.entry.scn l.entry.dtc (length row.old) number to rest.now s) }
    ensures row_after { row.new ≡ old_row l.entry.scn l.entry.dtc (length row.old) number rest.now }
{
    let line = read_scanline(l.scn, l.dtc, number, rest, row)?;
    line.body?;
    Ok(LineSurvey {
        used: line.used,
        partway: first_column(l.scn, rest) != 0,
        body: body_size(to, l.scn, row),
    })
}

// Writes the new scanlines one after the other.
fn write_lines(l: RasterLayout, row: &mut [u16], out: &mut [u8])
    requires ready { Ready (raster_of l) row.old }
    requires lines_fit { LinesFit (raster_of l) out.old }
    ensures { out.new ≡ new_lines (raster_of l.entry) l.entry.nol ++ drop (length (new_lines (raster_of l.entry) l.entry.nol)) out.old }
{
    let to = other_type(l.dtc);
    let mut from = l.start;
    let mut rollover = 0;
    let mut at = 0;
    for k in 0..l.nol as usize {
        let rest = &l.bytes[from..];
        let numbered = number_line(rollover, k, rest);
        let line = write_line(rest, l, numbered.number, to, row, &mut out[at..]);
        from += line.used.0;
        rollover = numbered.rollover;
        at += line.size.0;
    }
}

// Writes the new scanline over the start of the output.
fn write_line(
    rest: &[u8],
    l: RasterLayout,
    number: u16,
    to: u16,
    row: &mut [u16],
    out: &mut [u8],
) -> LineSizes
    requires { LineFits l.scn to (head_of rest.now) (old_row l.scn l.dtc (length row.old) number rest.now) out.old }
    ensures written { IsWritten l.entry.scn l.entry.dtc (length row.old) number to rest.now out.old result out.new }
    ensures row_after { row.new ≡ old_row l.entry.scn l.entry.dtc (length row.old) number rest.now }
{
    let used = match read_scanline(l.scn, l.dtc, number, rest, row) {
        Ok(line) => line.used,
        Err(_) => Bytes(0),
    };
    let size = put_line(l.scn, to, rest, row, out);
    LineSizes { used, size }
}

// Puts a row's body over the start of the output, and before it, where there are headers, the old one, with the words to follow fitted.
fn put_line(scn: u8, to: u16, rest: &[u8], row: &[u16], out: &mut [u8]) -> Bytes
    requires { LineFits scn to (head_of rest.now) row.now out.old }
    ensures result_value { result.0 ≡ length (new_line scn to (head_of rest.now) row.now) }
    ensures out_after { out.new ≡ new_line scn to (head_of rest.now) row.now ++ drop (length (new_line scn to (head_of rest.now) row.now)) out.old }
{
    if scn != 1 {
        return write_body(to, scn, row, out);
    }
    let body = write_body(to, scn, row, &mut out[8..]);
    fit_header(&rest[..8], bytes_to_words(body), out);
    Bytes(8 + body.0)
}
