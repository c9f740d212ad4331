//! The rules on the units of an image.

ghost use Rattle.std.specs.Prelude.{◌≡◌, ◌+◌, ◌*◌, ◌<◌, ◌≤◌, IfOk, IfSome, IsTrue, Some, is_some, length, nat_lt};
ghost use Rattle.std.specs.List.{AllByRecursion, list_all};
ghost use Rattle.edd_instructions.specs.declared.rules.Rule.TheVariants as rule;
ghost use Rattle.edd_image.specs.Contents.{rows_from, attribute_fields, contents_in, version_of};
ghost use Rattle.edd_image.specs.Fields.{header_length, version_number};
ghost use Rattle.edd_instructions.specs.Validity.{are_rows, fault_number, EachUnitKeeps, UnitsKeep};
ghost use Rattle.edd_loader.specs.Sections.{AreSectionsOf, lies_within};
ghost use Rattle.edd_loader.specs.UnitRows.{RowKeeps, RowsKeepBelow, context_of, fault_bound, first_of};
ghost use Rattle.edd_unit_rules.specs.BrokenRule.{rule_in};

use crate::abort_methods::first_bodiless;
use crate::attributes::DEFINITION;
use crate::spans::{part, place_in};
use crate::spot::Site;
use edd_image::{
    ATTRIBUTE_ROW, Counts, Version, attribute_count, attribute_length, attribute_number,
    attribute_rows_start, attribute_start, attribute_sub, code_length, code_start, counts, version,
};
use edd_instructions::{Context, Sort, UnitRule};
use edd_unit_rules::broken_in_unit;
use std::alloc::{AllocError, Global};

// The context of the unit of an attribute row.
fn context_of(bytes: &[u8], version: Version, counts: Counts, row: usize) -> Context
    requires { row + ATTRIBUTE_ROW ≤ length bytes.now }
    ensures { result ≡ context_of version counts (attribute_fields bytes.now row) }
{
    if attribute_number(bytes, row) == DEFINITION {
        Context {
            version,
            counts,
            sort: Sort::Method,
            slots: attribute_sub(bytes, row),
        }
    } else {
        Context {
            version,
            counts,
            sort: Sort::Attribute,
            slots: 0,
        }
    }
}

// Whether a rule is tried before another.
fn is_before(one: UnitRule, other: UnitRule) -> bool
    ensures { result ≡ nat_lt (fault_number (rule.Unit one)) (fault_number (rule.Unit other)) }
{
    use UnitRule::{Chain, Depth, Jump, Reference};
    match one {
        Chain => other != Chain,
        Jump => matches!(other, Depth | Reference),
        Depth => other == Reference,
        Reference => false,
    }
}

// Of the rule that rows so far break and that which the unit of this row breaks the one that is
// tried first.
fn first_of(
    broken: Option<(UnitRule, Site)>,
    found: Option<(UnitRule, usize)>,
    row: usize,
) -> Option<(UnitRule, Site)>
    ensures { rule_in result ≡ first_of (rule_in broken) (rule_in found) }
{
    let Some((rule, place)) = found else {
        return broken;
    };
    match broken {
        Some((first, _)) if !is_before(rule, first) => broken,
        _ => Some((rule, Site { row, place })),
    }
}

// The first of the rules that is broken by the unit of one of `count` attribute rows, the first of
// which is at `start`. It is a function of its own, so that what the walk needs stays in
// registers.
#[inline(never)]
fn broken_in_rows(
    alloc: Global,
    bytes: &[u8],
    code: &[u8],
    version: Version,
    counts: Counts,
    start: usize,
    count: usize,
) -> Result<Option<(UnitRule, Site)>, AllocError>
    requires room { start + ATTRIBUTE_ROW * count ≤ length bytes.now }
    requires within { IsTrue (list_all (λ r. lies_within (length code.now) r.span)
        (rows_from (attribute_fields bytes.now) 16 count start)) }
    ensures kept { IfOk result
        (λ broken. RowsKeepBelow version counts code.now
        (rows_from (attribute_fields bytes.now) 16 count start) (fault_bound (rule_in broken))) }
    ensures broken { IfOk result
        (λ broken. IfSome (rule_in broken) (λ which. ¬ AllByRecursion (RowKeeps version counts code.now which)
        (rows_from (attribute_fields bytes.now) 16 count start))) }
{
    let mut broken = None;
    for index in 0..count {
        let row = start + ATTRIBUTE_ROW * index;
        let place = attribute_start(bytes, row) as usize;
        let size = attribute_length(bytes, row) as usize;
        let unit = part(code, place, size);
        let context = context_of(bytes, version, counts, row);
        let found = broken_in_unit(alloc, context, unit)?;
        broken = first_of(broken, found, index);
    }
    Ok(broken)
}

// The version, where it is known.
fn known_version(bytes: &[u8]) -> Version
    requires header { header_length ≤ length bytes.now }
    requires known { IsTrue (is_some (version_of (version_number bytes.now))) }
    ensures { version_of (version_number bytes.now) ≡ Some result }
{
    match version(bytes) {
        Some(known) => known,
        None => unreachable!(),
    }
}

// The first of the rules that one of the units breaks by itself.
fn broken_in_each(alloc: Global, bytes: &[u8]) -> Result<Option<(UnitRule, Site)>, AllocError>
    requires sections { AreSectionsOf bytes.now }
    requires version { IsTrue (is_some (version_of (version_number bytes.now))) }
    requires rows { IsTrue (are_rows (contents_in bytes.now)) }
    ensures kept { IfOk result (λ broken. (earlier : UnitRule) → fault_number (rule.Unit earlier)
        < fault_bound (rule_in broken) → EachUnitKeeps (contents_in bytes.now) earlier) }
    ensures broken { IfOk result
        (λ broken. IfSome (rule_in broken) (λ which. ¬ EachUnitKeeps (contents_in bytes.now) which)) }
{
    let start = attribute_rows_start(bytes);
    let count = attribute_count(bytes) as usize;
    let place = place_in(bytes, code_start(bytes));
    let size = code_length(bytes) as usize;
    let code = part(bytes, place, size);
    broken_in_rows(
        alloc,
        bytes,
        code,
        known_version(bytes),
        counts(bytes),
        start,
        count,
    )
}

// Of two instructions the one that comes first.
fn earlier(one: Site, other: Option<Site>) -> Site {
    match other {
        Some(other) if (other.row, other.place) < (one.row, one.place) => other,
        _ => one,
    }
}

/// The first of the rules on units that is broken, if one is, and the first instruction where it is.
pub fn broken_in_units(alloc: Global, bytes: &[u8]) -> Result<Option<(UnitRule, Site)>, AllocError>
    requires sections { AreSectionsOf bytes.now }
    requires version { IsTrue (is_some (version_of (version_number bytes.now))) }
    requires rows { IsTrue (are_rows (contents_in bytes.now)) }
    ensures kept { IfOk result (λ broken. (earlier : UnitRule) → fault_number (rule.Unit earlier)
        < fault_bound (rule_in broken) → UnitsKeep (contents_in bytes.now) earlier) }
    ensures broken { IfOk result
        (λ broken. IfSome (rule_in broken) (λ which. ¬ UnitsKeep (contents_in bytes.now) which)) }
{
    match broken_in_each(alloc, bytes)? {
        Some((UnitRule::Reference, site)) => {
            Ok(Some((UnitRule::Reference, earlier(site, first_bodiless(bytes)))))
        }
        Some(broken) => Ok(Some(broken)),
        None => match first_bodiless(bytes) {
            Some(site) => Ok(Some((UnitRule::Reference, site))),
            None => Ok(None),
        },
    }
}
