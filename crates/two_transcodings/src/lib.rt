// A sheet moved to the other type, and moved back or read there, with the laws that join the two calls.
//
// Each function makes both calls, so that its promise says the law of the calls themselves and not only of definitions.
#![tactic(auto)]

ghost use Rattle.std.specs.Prelude.{◌≡◌, ◌*◌, ◌≤◌, length};
ghost use Rattle.layout.specs.Chain.{sheet_of};
ghost use Rattle.encode_answer.specs.Answer.{write_numbers};
ghost use Rattle.there_and_back.specs.Statement.{NothingFollows, BodiesAsWritten};
ghost use Rattle.two_transcodings.specs.Call.{BothMoves, IsBack, MovedAndRead, SameReading};

use decode_raster::{Reading, read_raster};
use refusals::Rejection;
use transcode::transcode;
use units::Bytes;

// What the two moves answered. Where the first is rejected there is no second, and its answer is the first one's rejection.
#[derive(Clone, Copy, Debug, PartialEq, Eq)]
pub struct TwoMoves {
    pub there: Result<Bytes, Rejection>,
    pub back: Result<Bytes, Rejection>,
}

// Moves the sheet of a file to the other type, and that one back. Where neither move is rejected and nothing follows the last line, a
// sheet of type 1 comes back byte for byte, and so does one of type 9 whose bodies are as they are written.
pub fn transcode_twice(file: &[u8], between: &mut [u8], out: &mut [u8]) -> TwoMoves
    ensures calls { BothMoves file.now between.old out.old result between.new out.new }
    ensures packed { (write_numbers result.there).number ≡ 0 → (write_numbers result.back).number ≡ 0 → NothingFollows file.now → (sheet_of file.now).data_type ≡ 1 → IsBack file.now out.old result out.new }
    ensures runs { (write_numbers result.there).number ≡ 0 → (write_numbers result.back).number ≡ 0 → NothingFollows file.now → (sheet_of file.now).data_type ≡ 9 → BodiesAsWritten (sheet_of file.now) → IsBack file.now out.old result out.new }
{
    let there = transcode(file, between);
    let back = match there {
        Ok(size) => transcode(&between[..size.0], out),
        Err(unmoved) => Err(unmoved),
    };
    TwoMoves { there, back }
}

// What the move answered, and the reading of what it wrote. Where it is rejected nothing is read, and the reading has its rejection.
#[derive(Clone, Copy, Debug, PartialEq, Eq)]
pub struct MovedReading {
    pub moved: Result<Bytes, Rejection>,
    pub read: Result<Reading, Rejection>,
}

// Moves the sheet of a file to the other type and reads what was written. Where the move is not rejected and there is room for the
// reading, every mark and every pixel are those of the file.
pub fn transcode_and_read(
    file: &[u8],
    out: &mut [u8],
    pixels: &mut [u16],
    marks: &mut [u8],
) -> MovedReading
    ensures calls { MovedAndRead file.now out.old pixels.old marks.old result out.new pixels.new marks.new }
    ensures as_before { (write_numbers result.moved).number ≡ 0 → (sheet_of file.now).nol * (sheet_of file.now).ppl ≤ length pixels.old → (sheet_of file.now).nol ≤ length marks.old → SameReading file.now pixels.old marks.old result out.new pixels.new marks.new }
{
    let moved = transcode(file, out);
    let read = match moved {
        Ok(size) => read_raster(&out[..size.0], pixels, marks),
        Err(unread) => Err(unread),
    };
    MovedReading { moved, read }
}
