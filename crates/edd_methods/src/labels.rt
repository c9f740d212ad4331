//! The labels of a switch, with the places that they lead to, and the tests of cases.

ghost use Rattle.std.specs.Prelude.{◌≡◌, [], ◌++◌, None, OnOk};
ghost use Rattle.edd_syntax.specs.TreeView.{numbered_part};
ghost use Rattle.edd_methods.specs.Labels.{case_noted, default_noted, or_else};
ghost use Rattle.edd_methods.specs.Writing.{default_or, test_of, tests_of};

use edd_code::put;
use edd_instructions::{Emitter, Instruction};
use edd_syntax::reference::Target;
use edd_syntax::stmt::Part;
use edd_syntax::wrap::wrap;
use std::alloc::{AllocError, Global};

/// The cases so far, and the first default.
#[derive(Drop)]
pub struct Labels {
    pub cases: Vec<(i64, u32)>,
    pub default: Option<u32>,
}

impl Labels {
    /// No label yet.
    pub fn new(alloc: Global) -> Labels
        ensures cases { result.cases.items ≡ [] }
        ensures default { result.default ≡ None }
    {
        Labels {
            cases: Vec::new(alloc),
            default: None,
        }
    }
}

/// Notes a label, which leads to a place. Other parts are none.
pub fn note(labels: &mut Labels, part: &Part<Target>, place: u32) -> Result<(), AllocError>
    ensures cases { OnOk result (labels.new.cases.items ≡ labels.old.cases.items
        ++ case_noted place (numbered_part part.now)) }
    ensures default { OnOk result
        (labels.new.default ≡ or_else labels.old.default
        (default_noted place (numbered_part part.now))) }
{
    match part {
        Part::CaseLabel { label, .. } => {
            labels.cases.push((wrap(32, i128::from(*label)), place))?;
        }
        Part::DefaultLabel { .. } => {
            if labels.default.is_none() {
                labels.default = Some(place);
            }
        }
        Part::Declare(_) | Part::Statement(_) => {}
    }
    Ok(())
}

/// Where no label is met: to the first default, or out of the switch.
pub fn default_or(out: u32, default: Option<u32>) -> u32
    ensures { result ≡ default_or out default }
{
    match default {
        None => out,
        Some(place) => place,
    }
}

fn write_test(code: &mut Emitter, case: &(i64, u32)) -> Result<(), AllocError>
    ensures { OnOk result (code.new ≡ code.old ++ test_of case.now) }
{
    let (label, target) = *case;
    put(code, Instruction::Case { label, target })
}

/// One test for each case, in order.
pub fn write_tests(code: &mut Emitter, cases: &[(i64, u32)]) -> Result<(), AllocError>
    ensures { OnOk result (code.new ≡ code.old ++ tests_of cases.now) }
{
    for case in cases {
        write_test(code, case)?;
    }
    Ok(())
}
