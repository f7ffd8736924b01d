// The small parts of the move between data types 1 and 9: what the types are, what rejects it, and the headers of the new file.
//
// They are apart from the move because each stands for itself: none looks at a scanline's body.
#![tactic(auto)]

ghost use Rattle.std.specs.Prelude.{◌≡◌, min};
ghost use Rattle.refusals.specs.Rejections.{rejected_by};
ghost use Rattle.units.specs.Over.{over};
ghost use Rattle.units.specs.Rules.{first};
ghost use Rattle.encode_answer.specs.Sizes.{most_words, answer_by};
ghost use Rattle.encode_answer.specs.Answer.{write_numbers};
ghost use Rattle.transcode_parts.specs.Headers.{other_type, with_type, fitted};
ghost use Rattle.transcode_parts.specs.Rules.{unmoved_rules, found_rules};

use encode_answer::answer_by_size;
use refusals::Rejection;
use slices::copy;
use units::{Bytes, Words, put_word};

// From 1 to 9, and from 9 to 1.
pub fn other_type(dtc: u16) -> u16
    ensures { result ≡ other_type dtc }
{
    if dtc == 1 { 9 } else { 1 }
}

// 30 for a data type other than 1 and 9, which has no other to be moved to.
pub fn unmoved_type(dtc: u16) -> Result<(), Rejection>
    ensures { rejected_by result ≡ first (unmoved_rules dtc) }
{
    match dtc {
        1 | 9 => Ok(()),
        _ => Err(Rejection::Unmoved),
    }
}

// The length, or 41, 42, 27, 10 or 28, by what was found in the scanlines, for a new file of `size` bytes and an output of `room`.
pub fn answer_by_lines(
    scn: u8,
    refused: bool,
    partway: bool,
    long: bool,
    size: usize,
    room: usize,
) -> Result<Bytes, Rejection>
    ensures { write_numbers result ≡ answer_by (first (found_rules scn refused partway long size room)) size }
{
    if refused {
        return Err(Rejection::RefusedLine);
    }
    if partway {
        return Err(Rejection::PartwayLine);
    }
    answer_by_size(scn, long, size, room)
}

// Puts the old header over the start of the output, with the new data type.
pub fn carry_header(header: &[u8], to: u16, out: &mut [u8])
    ensures { out.new ≡ with_type (over header.now out.old) to }
{
    copy(header, out);
    put_word(out, 4, to);
}

// Puts a scanline's old header over the start of the output, with the words to follow fitted to the new body. They are no more than a
// header can count: a sheet with a longer body is rejected before a header is put (27).
pub fn fit_header(head: &[u8], body: Words, out: &mut [u8])
    ensures { out.new ≡ fitted (over head.now out.old) (min body.0 most_words.0) }
{
    copy(head, out);
    let follow = body.0.min(65533) + 2;
    put_word(out, 2, follow as u16);
}
