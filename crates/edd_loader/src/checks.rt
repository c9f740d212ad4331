//! The first rule that an image breaks.

ghost use Rattle.std.specs.Prelude.{IfOk, IfSome, MatchOption};
ghost use Rattle.edd_instructions.specs.Validity.{BreaksFirst, IsValid};
ghost use Rattle.edd_loader.specs.Rules.{KeepsBelow};
ghost use Rattle.edd_loader.specs.Spots.{IsSpotOf};

use crate::header::broken_in_header;
use crate::sections::{broken_name, broken_row, broken_string};
use crate::spot::Spot;
use crate::units::broken_in_units;
use edd_instructions::Rule;
use std::alloc::{AllocError, Global};

// The first of the rules on rows, names and strings that is broken, if one is.
fn broken_in_sections(bytes: &[u8]) -> Option<(Rule, Spot)>
    requires { KeepsBelow bytes.now 105 }
    ensures rule { MatchOption result (KeepsBelow bytes.now 108) (λ broken. BreaksFirst bytes.now
        broken.0) }
    ensures spot { IfSome result (λ broken. IsSpotOf bytes.now broken.1) }
{
    if let Some(spot) = broken_row(bytes) {
        return Some((Rule::Row, spot));
    }
    if let Some(number) = broken_name(bytes) {
        return Some((Rule::Name, Spot::Name(number)));
    }
    if let Some(number) = broken_string(bytes) {
        return Some((Rule::Text, Spot::String(number)));
    }
    None
}

// The first of the rules on units that is broken, if one is.
fn broken_in_code(alloc: Global, bytes: &[u8]) -> Result<Option<(Rule, Spot)>, AllocError>
    requires { KeepsBelow bytes.now 108 }
    ensures rule { IfOk result (λ broken. MatchOption broken (IsValid bytes.now)
        (λ first. BreaksFirst bytes.now first.0)) }
    ensures spot { IfOk result (λ broken. IfSome broken (λ first. IsSpotOf bytes.now first.1)) }
{
    match broken_in_units(alloc, bytes)? {
        Some((rule, site)) => Ok(Some((Rule::Unit(rule), Spot::Instruction(site)))),
        None => Ok(None),
    }
}

/// The first rule that is broken, if one is, and the first spot where it is.
pub fn first_broken(alloc: Global, bytes: &[u8]) -> Result<Option<(Rule, Spot)>, AllocError>
    ensures rule { IfOk result (λ broken. MatchOption broken (IsValid bytes.now)
        (λ first. BreaksFirst bytes.now first.0)) }
    ensures spot { IfOk result (λ broken. IfSome broken (λ first. IsSpotOf bytes.now first.1)) }
{
    if let Some(rule) = broken_in_header(bytes) {
        return Ok(Some((rule, Spot::Header)));
    }
    if let Some(broken) = broken_in_sections(bytes) {
        return Ok(Some(broken));
    }
    broken_in_code(alloc, bytes)
}
