// The static library for programs in C: each function calls the one of its name in the library `capi`, and has its clauses.
//
// A static library can be used by no crate, so that what is proved of two calls is proved of the library's.
#![tactic(auto)]

ghost use Rattle.std.specs.Prelude.{◌≡◌, ◌%◌, length};
ghost use Rattle.layout.specs.PixelBytes.{pixel_bytes_after, byte_marks_after};
ghost use Rattle.orient.specs.Turning.{turn_rejection, upright_after, pixels_after};
ghost use Rattle.encode_raster.specs.Writing.{out_after};
ghost use Rattle.encode_raster.specs.Answer.{picture};
ghost use Rattle.transcode.specs.Transcoding.{out_transcoded};
ghost use Rattle.answers.specs.Answer.{result_of, answer_after, unless_short};
ghost use Rattle.capi.specs.Calls.{header_size, c_header, raster_size, c_raster, color_size, c_color, c_plotter_color, write_size, c_write, c_move};

// Reads the header of a file.
#[unsafe(no_mangle)]
pub extern "C" fn ingr_header(file: &[u8], answer: &mut [u8]) -> u32
    ensures value { result ≡ result_of header_size (c_header file.now) answer.old }
    ensures answer_after { answer.new ≡ answer_after header_size (c_header file.now) answer.old }
{
    capi::ingr_header(file, answer)
}

// The color of a pixel value in a file, as it is shown.
#[unsafe(no_mangle)]
pub extern "C" fn ingr_color(file: &[u8], value: u32, answer: &mut [u8]) -> u32
    ensures value { result ≡ result_of color_size (c_color file.now value) answer.old }
    ensures answer_after { answer.new ≡ answer_after color_size (c_color file.now value) answer.old }
{
    capi::ingr_color(file, value, answer)
}

// The color of a pixel value for the grayscale plotter.
#[unsafe(no_mangle)]
pub extern "C" fn ingr_plotter_color(file: &[u8], value: u32, answer: &mut [u8]) -> u32
    ensures value { result ≡ result_of color_size (c_plotter_color file.now value) answer.old }
    ensures answer_after { answer.new ≡ answer_after color_size (c_plotter_color file.now value) answer.old }
{
    capi::ingr_plotter_color(file, value, answer)
}

// Reads the raster of a file: pixels as two bytes each, low byte first, row after row, and a status for each scanline.
#[unsafe(no_mangle)]
pub extern "C" fn ingr_raster(
    file: &[u8],
    pixels: &mut [u8],
    marks: &mut [u8],
    answer: &mut [u8],
) -> u32
    ensures value { result ≡ result_of raster_size (c_raster file.now pixels.old marks.old) answer.old }
    ensures answer_after { answer.new ≡ answer_after raster_size (c_raster file.now pixels.old marks.old) answer.old }
    ensures pixels_after { pixels.new ≡ unless_short raster_size answer.old pixels.old (pixel_bytes_after file.now pixels.old marks.old) }
    ensures marks_after { marks.new ≡ unless_short raster_size answer.old marks.old (byte_marks_after file.now pixels.old marks.old) }
{
    capi::ingr_raster(file, pixels, marks, answer)
}

// Turns a sheet of nol lines of ppl pixels into the upright picture.
#[unsafe(no_mangle)]
pub extern "C" fn ingr_turn(
    slo: u32,
    ppl: u32,
    nol: u32,
    pixels: &[u16],
    upright: &mut [u16],
) -> u32
    ensures value { result ≡ turn_rejection slo ppl nol (length pixels.now) (length upright.old) }
    ensures upright_after { upright.new ≡ upright_after slo ppl nol pixels.now upright.old }
{
    capi::ingr_turn(slo, ppl, nol, pixels, upright)
}

// Turns an upright picture back into the sheet of nol lines of ppl pixels.
#[unsafe(no_mangle)]
pub extern "C" fn ingr_turn_back(
    slo: u32,
    ppl: u32,
    nol: u32,
    upright: &[u16],
    pixels: &mut [u16],
) -> u32
    ensures value { result ≡ turn_rejection slo ppl nol (length upright.now) (length pixels.old) }
    ensures pixels_after { pixels.new ≡ pixels_after slo ppl nol upright.now pixels.old }
{
    capi::ingr_turn_back(slo, ppl, nol, upright, pixels)
}

// Writes a file: the fields by the format's names, DRS as the low 16 bits of a number of two's complement, a color table of 0 or 768
// bytes, and the pixels row after row.
#[unsafe(no_mangle)]
pub extern "C" fn ingr_write(
    dtc: u32,
    ppl: u32,
    nol: u32,
    slo: u32,
    scn: u32,
    drs: u32,
    table: &[u8],
    pixels: &[u16],
    out: &mut [u8],
    answer: &mut [u8],
) -> u32
    ensures value { result ≡ result_of write_size (c_write (picture dtc ppl nol slo scn (drs % 65536) table.now pixels.now) (length out.old)) answer.old }
    ensures answer_after { answer.new ≡ answer_after write_size (c_write (picture dtc ppl nol slo scn (drs % 65536) table.now pixels.now) (length out.old)) answer.old }
    ensures out_after { out.new ≡ unless_short write_size answer.old out.old (out_after (picture dtc ppl nol slo scn (drs % 65536) table.now pixels.now) out.old) }
{
    capi::ingr_write(dtc, ppl, nol, slo, scn, drs, table, pixels, out, answer)
}

// Moves the raster of a file from data type 1 to type 9, or from type 9 to type 1.
#[unsafe(no_mangle)]
pub extern "C" fn ingr_move(file: &[u8], out: &mut [u8], answer: &mut [u8]) -> u32
    ensures value { result ≡ result_of write_size (c_move file.now (length out.old)) answer.old }
    ensures answer_after { answer.new ≡ answer_after write_size (c_move file.now (length out.old)) answer.old }
    ensures out_after { out.new ≡ unless_short write_size answer.old out.old (out_transcoded file.now out.old) }
{
    capi::ingr_move(file, out, answer)
}
