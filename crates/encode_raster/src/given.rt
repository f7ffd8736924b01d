// The limits of a picture: its fields, the lengths of its table and pixels, and the pixels' values.
ghost use Rattle.std.specs.Prelude.{◌≡◌, ◌||◌, ◌++◌, ◌==◌};
ghost use Rattle.refusals.specs.Rejections.{rejected_by};
ghost use Rattle.units.specs.Rules.{first};
ghost use Rattle.limits.specs.Limits.{limit_rules};
ghost use Rattle.encode_raster.specs.Writing.{any_above, length_rules};

use limits::limit_rejection;
use refusals::Rejection;

// The limits of the fields, and 21 and 23 for a table and pixels of these lengths.
pub fn field_rejection(
    dtc: u32,
    ppl: u32,
    nol: u32,
    slo: u32,
    scn: u32,
    table: usize,
    pixels: usize,
) -> Result<(), Rejection>
    ensures { rejected_by result ≡ first (limit_rules dtc slo scn ppl nol ++ length_rules ppl nol table pixels) }
{
    limit_rejection(dtc, slo, scn, ppl, nol)?;
    if !is_table_size(table) {
        return Err(Rejection::ColorTable);
    }
    if pixels < (nol as usize) * (ppl as usize) {
        return Err(Rejection::PixelRoom);
    }
    Ok(())
}

// No table, or one of 256 colors.
fn is_table_size(size: usize) -> bool
    ensures { result ≡ (size == 0 || size == 768) }
{
    size == 0 || size == 768
}

// Whether some pixel is above m. Every pixel is looked at: a loop that ends at the first would not be vectorised, so it is no `any`.
#[tactic(auto, using(crate::proofs::Laws::Limits::above_next, crate::proofs::Laws::Limits::above_end), unfolding(crate::specs::Writing::any_above))]
pub fn any_above(pixels: &[u16], m: u16) -> bool
    ensures { result ≡ any_above m pixels.now }
{
    let mut found = false;
    for pixel in pixels {
        found = found | (m < *pixel);
    }
    found
}
