// One scanline of a raster, with a header or without, read from the bytes that are left of it.
//
// It is scanned first. Then the row that is lent is filled, with the scanline's pixels where its status is 0, else with zeros. A row has
// 16 bits for each pixel, or two bytes, low byte first.
#![tactic(auto)]

ghost use Rattle.std.specs.Prelude.{◌≡◌, ◌++◌, ◌-◌, ◌≤◌, length, drop};
ghost use Rattle.units.specs.Counts.{word_bytes};
ghost use Rattle.units.specs.Over.{over, zeros};
ghost use Rattle.units.specs.Words.{word_count, words_to_bytes};
ghost use Rattle.codec.specs.Extent.{extent_of};
ghost use Rattle.codec.specs.Table.{body_pixels};
ghost use Rattle.layout.specs.Scanline.{step_of, reading_of};
ghost use Rattle.scan_scanline.specs.Answer.{IsScan};
ghost use Rattle.decode_scanline.specs.Answer.{IsLine};

use decode_body::{paint_body, paint_body_bytes};
use refusals::Fault;
use scan_scanline::{Scanline, body_start, first_column, scan_scanline};
use units::{Bytes, Words, bytes_to_words, words_to_bytes};

// Reads a scanline into a row of pixels.
pub fn read_scanline(
    scn: u8,
    dtc: u16,
    number: u16,
    rest: &[u8],
    row: &mut [u16],
) -> Result<Scanline, Fault>
    ensures { IsLine (step_of scn dtc (length row.old) rest.now) (reading_of scn dtc (length row.old) number rest.now) (extent_of result) row.new }
{
    let read = scan_scanline(scn, dtc, number, row.len(), rest);
    match read {
        Ok(line) if line.body == Ok(()) => {
            let from = body_start(scn);
            let column = first_column(scn, rest);
            let to = line.used.0;
            paint_from(dtc, &rest[from..to], column, row);
        }
        _ => row.fill(0),
    }
    read
}

// Reads a scanline into a row of bytes, two for each pixel, low byte first. An odd last byte is left as it was.
pub fn read_scanline_bytes(
    scn: u8,
    dtc: u16,
    number: u16,
    rest: &[u8],
    row: &mut [u8],
) -> Result<Scanline, Fault>
    ensures scan { IsScan (step_of scn dtc (word_count row.old).0 rest.now) (reading_of scn dtc (word_count row.old).0 number rest.now) (extent_of result) }
    ensures row_after { row.new ≡ over (words_to_bytes (reading_of scn dtc (word_count row.old).0 number rest.now).row) row.old }
{
    let p = bytes_to_words(Bytes(row.len())).0;
    let read = scan_scanline(scn, dtc, number, p, rest);
    match read {
        Ok(line) if line.body == Ok(()) => {
            let from = body_start(scn);
            let column = first_column(scn, rest);
            let to = line.used.0;
            paint_bytes_from(dtc, &rest[from..to], column, p, row);
        }
        _ => {
            let end = words_to_bytes(Words(p)).0;
            row[..end].fill(0);
        }
    }
    read
}

// Paints the pixels of a body into a row from a column on, and clears the ones before it.
fn paint_from(dtc: u16, body: &[u8], column: usize, row: &mut [u16])
    requires { column ≤ length row.old }
    ensures { row.new ≡ zeros column ++ over (body_pixels dtc body.now (length row.old - column)) (drop column row.old) }
{
    row[..column].fill(0);
    paint_body(dtc, body, &mut row[column..]);
}

// The same in the bytes of a row of p pixels. Nearly every scanline starts in the first column, where there is nothing to clear.
fn paint_bytes_from(dtc: u16, body: &[u8], column: usize, p: usize, row: &mut [u8])
    requires column_le_p { column ≤ p }
    requires p_in_bounds { word_bytes p ≤ length row.old }
    ensures { row.new ≡ zeros (word_bytes column) ++ (over (words_to_bytes (body_pixels dtc body.now (p - column))) (zeros (word_bytes (p - column))) ++ drop (word_bytes p) row.old) }
{
    let size = words_to_bytes(Words(p - column)).0;
    if column == 0 {
        paint_body_bytes(dtc, body, &mut row[..size]);
        return;
    }
    let start = words_to_bytes(Words(column)).0;
    row[..start].fill(0);
    paint_body_bytes(dtc, body, &mut row[start..start + size]);
}
