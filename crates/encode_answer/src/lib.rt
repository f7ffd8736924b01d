// The answer of a call that writes a file, and its rejections by the sizes of what it would write.
//
// They are known before a byte is stored.
#![tactic(auto)]

ghost use Rattle.std.specs.Prelude.{◌≡◌, ◌||◌, ltb};
ghost use Rattle.units.specs.Rules.{first};
ghost use Rattle.encode_answer.specs.Sizes.{most_words, size_rules, answer_by};
ghost use Rattle.encode_answer.specs.Answer.{write_numbers};

use refusals::Rejection;
use units::{Bytes, Words};

// The most words of a body that a scanline header can count.
const MOST_WORDS: Words = Words(65533);

// The length of a file of `size` bytes, or its rejection where that is more than the `room` of the output, or than the format has. `long`
// says that some body is too long for a scanline header to count.
pub fn answer_by_size(scn: u8, long: bool, size: usize, room: usize) -> Result<Bytes, Rejection>
    ensures { write_numbers result ≡ answer_by (first (size_rules scn long size room)) size }
{
    if scn == 1 && long {
        return Err(Rejection::BodyTooLong);
    }
    if 2147483647 < size {
        return Err(Rejection::TooLong);
    }
    if room < size {
        return Err(Rejection::OutputRoom);
    }
    Ok(Bytes(size))
}

// Whether a body is too long, this one or one before it.
pub fn or_long(long: bool, body: Words) -> bool
    ensures { result ≡ (long || ltb most_words.0 body.0) }
{
    long || MOST_WORDS.0 < body.0
}
