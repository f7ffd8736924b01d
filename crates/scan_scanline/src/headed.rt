// A scanline with a header: identifier, words to follow, line number, pixel offset, a word each, and then the body.
ghost use Rattle.std.specs.Prelude.{◌≡◌, ◌++◌, ◌+◌, ◌≤◌, ◌<◌, length};
ghost use Rattle.refusals.specs.Faults.{status_of};
ghost use Rattle.units.specs.Counts.{bytes_of_words};
ghost use Rattle.units.specs.LittleEndian.{u16_at};
ghost use Rattle.units.specs.Rules.{first};
ghost use Rattle.codec.specs.Extent.{extent_of};
ghost use Rattle.codec.specs.Table.{body_rules};
ghost use Rattle.layout.specs.Scanline.{headed_step, headed_reading, head_of, body_of, body_width, lost_rules, pixel_offset, placement_rules};
ghost use Rattle.scan_scanline.specs.Answer.{IsScan};

use codec::Scanline;
use decode_body::body_status;
use refusals::Fault;
use units::{Bytes, Words, u16_at, words_to_bytes};

#[tactic(auto, using(crate::proofs::Laws::Headed::kept_body))]
pub fn scan_headed(dtc: u16, number: u16, p: usize, rest: &[u8]) -> Result<Scanline, Fault>
    ensures { IsScan (headed_step rest.now) (headed_reading dtc p number rest.now) (extent_of result) }
{
    lost_status(rest)?;
    let used = size_by(words_to_follow(rest));
    let end = used.0;
    let body = kept_status(dtc, number, p, rest, &rest[8..end]);
    Ok(Scanline { used, body })
}

// W: a header's second word, the words that follow it.
fn words_to_follow(rest: &[u8]) -> Words
    ensures result_value { result.0 ≡ u16_at rest.now 2 }
    ensures result_bound { result.0 < 65536 }
{
    Words(u16_at(rest, 2) as usize)
}

// The bytes of a scanline that has these words to follow: they come after its first two words.
fn size_by(following: Words) -> Bytes
    requires { following.0 < 65536 }
    ensures { result.0 ≡ 4 + (bytes_of_words following).0 }
{
    Bytes(4 + words_to_bytes(following).0)
}

// 1 to 3, with which a scanline is lost.
#[tactic(auto, using(crate::proofs::Laws::Headed::lost_tests))]
fn lost_status(rest: &[u8]) -> Result<(), Fault>
    ensures { status_of result ≡ first (lost_rules (head_of rest.now) (body_of rest.now)) }
{
    if rest.len() < 8 {
        return Err(Fault::PastEnd);
    }
    if rest[1] != 0x59 {
        return Err(Fault::Identifier);
    }
    let following = words_to_follow(rest);
    if following.0 < 2 {
        return Err(Fault::WordsToFollow);
    }
    let size = size_by(following);
    if rest.len() < size.0 {
        return Err(Fault::PastEnd);
    }
    Ok(())
}

// The status of a scanline that is not lost: 4 or 5, or that of its body.
fn kept_status(dtc: u16, number: u16, p: usize, rest: &[u8], body: &[u8]) -> Result<(), Fault>
    requires { 8 ≤ length rest.now }
    ensures { status_of result ≡ first (placement_rules p number (head_of rest.now) ++ body_rules dtc body.now (body_width p (head_of rest.now))) }
{
    placement_status(rest, number, p)?;
    let width = p - pixel_offset(rest);
    body_status(dtc, body, width)
}

// A header's last word, the column of the body's first pixel.
#[tactic(auto, using(layout::proofs::Laws::Line::head_word))]
pub fn pixel_offset(rest: &[u8]) -> usize
    ensures { result ≡ pixel_offset (head_of rest.now) }
{
    u16_at(rest, 6) as usize
}

// 4 or 5, for a line number that is wrong or a pixel offset beyond the row.
#[tactic(auto, using(layout::proofs::Laws::Line::head_word))]
fn placement_status(rest: &[u8], number: u16, p: usize) -> Result<(), Fault>
    requires { 8 ≤ length rest.now }
    ensures { status_of result ≡ first (placement_rules p number (head_of rest.now)) }
{
    let found = u16_at(rest, 4);
    let offset = pixel_offset(rest);
    if found != number {
        return Err(Fault::LineNumber);
    }
    if p < offset {
        return Err(Fault::PixelOffset);
    }
    Ok(())
}
