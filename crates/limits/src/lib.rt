// The limits of the fields, 16 to 20, each a function of its own: every call that has the field has its limit too. Each
// function answers the rejection of the first rule that holds.
#![tactic(auto)]

ghost use Rattle.std.specs.Prelude.{◌≡◌, cond, eqb, ltb};
ghost use Rattle.refusals.specs.Rejections.{number_of, rejected_by};
ghost use Rattle.units.specs.Rules.{first};
ghost use Rattle.codec.specs.Table.{is_data_type};
ghost use Rattle.limits.specs.Limits.{type_rules, slo_rules, scn_rules, ppl_rules, nol_rules, limit_rules};

use refusals::Rejection;

// All limits, in the order of the table.
pub fn limit_rejection(dtc: u32, slo: u32, scn: u32, ppl: u32, nol: u32) -> Result<(), Rejection>
    ensures { rejected_by result ≡ first (limit_rules dtc slo scn ppl nol) }
{
    type_rejection(dtc)?;
    slo_rejection(slo)?;
    scn_rejection(scn)?;
    ppl_rejection(ppl)?;
    nol_rejection(nol)
}

// Whether a data type is read and written.
#[tactic(auto, unfolding(codec::specs::Table::is_data_type))]
pub fn is_data_type(dtc: u32) -> bool
    ensures { result ≡ is_data_type dtc }
{
    matches!(dtc, 1 | 2 | 3 | 9 | 10)
}

pub fn type_rejection(dtc: u32) -> Result<(), Rejection>
    ensures { rejected_by result ≡ first (type_rules dtc) }
{
    if is_data_type(dtc) {
        Ok(())
    } else {
        Err(Rejection::DataType)
    }
}

pub fn slo_rejection(slo: u32) -> Result<(), Rejection>
    ensures { rejected_by result ≡ first (slo_rules slo) }
{
    above(slo, 7, Rejection::Orientation)
}

pub fn scn_rejection(scn: u32) -> Result<(), Rejection>
    ensures { rejected_by result ≡ first (scn_rules scn) }
{
    above(scn, 1, Rejection::ScanlineHeaders)
}

pub fn ppl_rejection(ppl: u32) -> Result<(), Rejection>
    ensures { rejected_by result ≡ first (ppl_rules ppl) }
{
    zero_or_above(ppl, 65535, Rejection::PixelsPerLine)
}

pub fn nol_rejection(nol: u32) -> Result<(), Rejection>
    ensures { rejected_by result ≡ first (nol_rules nol) }
{
    zero_or_above(nol, 1000000, Rejection::Lines)
}

// The rejection where n is above the highest that is allowed.
fn above(n: u32, highest: u32, rejection: Rejection) -> Result<(), Rejection>
    ensures { rejected_by result ≡ cond (ltb highest n) (number_of rejection) 0 }
{
    if highest < n { Err(rejection) } else { Ok(()) }
}

// The same where n is 0 also.
fn zero_or_above(n: u32, highest: u32, rejection: Rejection) -> Result<(), Rejection>
    ensures { rejected_by result ≡ cond (eqb n 0) (number_of rejection) (cond (ltb highest n) (number_of rejection) 0) }
{
    if n == 0 {
        return Err(rejection);
    }
    above(n, highest, rejection)
}
