// The rejections of a file, in the order of the table. Each function answers the rejection of the first rule of its part of
// the table that holds.
ghost use Rattle.std.specs.Prelude.{◌≡◌};
ghost use Rattle.refusals.specs.Rejections.{rejected_by};
ghost use Rattle.units.specs.Rules.{first};
ghost use Rattle.fields.specs.Fields.{header_words, header_blocks};
ghost use Rattle.header.specs.Rejections.{frame_rules, field_rules, color_table_rules, rejection_to22, shares_slot, slot_occurs, entry_start, slot_at};

use fields::{Fields, fields_of, header_blocks, header_words};
use limits::limit_rejection;
use refusals::Rejection;
use units::{Blocks, Bytes, Words, blocks_to_bytes, blocks_to_words, u16_at, words_to_bytes};

// The rejection up to 22 of a file.
pub fn rejection_to_22(file: &[u8]) -> Result<(), Rejection>
    ensures { rejected_by result ≡ rejection_to22 file.now }
{
    let h = fields_of(file);
    let blocks = header_blocks(file);
    frame_rejection(Bytes(file.len()), h, header_words(file), blocks)?;
    field_rejection(h)?;
    table_rejection(file, h, blocks)
}

// 10 to 15: the file's length, the header's marks and its length.
fn frame_rejection(size: Bytes, h: Fields, words: Words, blocks: Blocks) -> Result<(), Rejection>
    requires words_value { words.0 ≡ (header_words h).0 }
    requires blocks_value { blocks.0 ≡ (header_blocks h).0 }
    ensures { rejected_by result ≡ first (frame_rules size h) }
{
    let whole = blocks_to_words(blocks);
    let bytes = blocks_to_bytes(blocks);
    if 2147483647 < size.0 {
        return Err(Rejection::TooLong);
    }
    if size.0 < 1024 {
        return Err(Rejection::TooShort);
    }
    if h.htc != 0x0908 {
        return Err(Rejection::Mark);
    }
    if whole.0 != words.0 {
        return Err(Rejection::HeaderLength);
    }
    if blocks.0 < 2 {
        return Err(Rejection::HeaderLength);
    }
    if size.0 < bytes.0 {
        return Err(Rejection::HeaderPastEnd);
    }
    if h.ver != 3 {
        return Err(Rejection::Version);
    }
    Ok(())
}

// 16 to 20: the fields within their limits.
fn field_rejection(h: Fields) -> Result<(), Rejection>
    ensures { rejected_by result ≡ first (field_rules h) }
{
    // Casts and no `From`, since each part of the table is proved of the fields themselves.
    limit_rejection(h.dtc as u32, h.slo as u32, h.scn as u32, h.ppl, h.nol)
}

// 21 and 22: a color table of a known kind, within the header, whose slots are distinct.
fn table_rejection(file: &[u8], h: Fields, blocks: Blocks) -> Result<(), Rejection>
    requires { blocks.0 ≡ (header_blocks h).0 }
    ensures { rejected_by result ≡ first (color_table_rules file.now h) }
{
    if 2 < h.ctv {
        return Err(Rejection::ColorTable);
    }
    if h.ctv == 0 {
        return Ok(());
    }
    if h.ctv == 1 {
        if blocks.0 < 3 {
            return Err(Rejection::ColorTable);
        }
        return Ok(());
    }
    if h.cte == 0 {
        return Err(Rejection::ColorTable);
    }
    if 256 < h.cte {
        return Err(Rejection::ColorTable);
    }
    let entries = h.cte as u16;
    let bytes = blocks_to_bytes(blocks);
    let end = entry_start(entries);
    if bytes.0 < end {
        return Err(Rejection::ColorTable);
    }
    if shares_slot(file, entries) {
        return Err(Rejection::SharedSlot);
    }
    Ok(())
}

// The byte where the Environ-V entry i, from 0, starts. Each entry is four words.
pub fn entry_start(i: u16) -> usize
    ensures { result ≡ entry_start i }
{
    768 + words_to_bytes(Words(4 * usize::from(i))).0
}

pub fn slot_at(file: &[u8], i: u16) -> u16
    ensures { result ≡ slot_at file.now i }
{
    u16_at(file, entry_start(i))
}

// 22: whether two of the entries share a slot.
fn shares_slot(file: &[u8], cte: u16) -> bool
    ensures { result ≡ shares_slot file.now cte }
{
    (0..cte).any(|i| slot_occurs(file, slot_at(file, i), i + 1, cte))
}

// Whether an entry from the one numbered `from` on has this slot.
fn slot_occurs(file: &[u8], slot: u16, from: u16, cte: u16) -> bool
    ensures { result ≡ slot_occurs file.now slot from cte }
{
    (from..cte).any(|i| slot_at(file, i) == slot)
}
