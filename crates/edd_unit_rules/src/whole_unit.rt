//! All rules on one unit.

ghost use Rattle.std.specs.Prelude.{IfErr, IfOk, MatchOption};
ghost use Rattle.edd_instructions.specs.declared.rules.UnitRule.TheVariants.{Chain};
ghost use Rattle.edd_instructions.specs.Units.{IsValidUnit, UnitBreaksFirst, UnitKeeps};
ghost use Rattle.edd_unit_rules.specs.BrokenRule.{rule_in};
ghost use Rattle.edd_unit_rules.specs.Walks.{IsSurveyOf, IsWalkAt};

use crate::marks::{Mark, are_settled, arrival};
use crate::survey::Survey;
use crate::walk::{Walk, may_lead};
use edd_instructions::{Context, Instruction, Sort, UnitRule, decode};
use std::alloc::{AllocError, Global};

// Walks over a unit as long as nothing is wrong, and gives the place that it has reached.
#[inline(always)]
fn walked(alloc: Global, context: Context, code: &[u8]) -> Result<(Walk, usize), AllocError>
    ensures { IfOk result (λ at. IsWalkAt context code.now at.0 at.1) }
{
    let marks = vec![in alloc; Mark::Unknown; code.len()]?;
    let mut walk = Walk {
        marks,
        goes_on: false,
        depth: 0,
    };
    let mut place = 0;
    while place < code.len() {
        let Some(depth) = arrival(walk.goes_on, walk.depth, walk.marks[place]) else {
            return Ok((walk, place));
        };
        let Some((instruction, next)) = decode(code, place) else {
            return Ok((walk, place));
        };
        if !walk.take_on(context, code.len(), place, depth, instruction) {
            // As if what is there had been brought: what was is lost.
            walk.goes_on = true;
            walk.depth = depth;
            return Ok((walk, place));
        }
        place = next;
    }
    Ok((walk, place))
}

// Goes on from there to the end of the unit. Where that is no chain, the place of the first
// instruction that is none, or isn't allowed.
fn surveyed(context: Context, code: &[u8], walk: Walk, place: usize) -> Result<Survey, usize>
    requires { IsWalkAt context code.now walk place }
    ensures whole { IfOk result (IsSurveyOf context code.now) }
    ensures refused { IfErr result (λ _. ¬ UnitKeeps context code.now Chain) }
{
    if code.is_empty() {
        return Err(0);
    }
    let mut survey = Survey::of(walk);
    let mut place = place;
    while place < code.len() {
        let Some((instruction, next)) = decode(code, place) else {
            return Err(place);
        };
        let depth = survey.arrive(place);
        if !survey.take_on(context, place, next, depth, instruction) {
            return Err(place);
        }
        place = next;
    }
    Ok(survey)
}

// Whether a way from an instruction leads to none, by the marks of its whole unit.
fn misleads(
    sort: Sort,
    marks: &[Mark],
    place: usize,
    next: usize,
    instruction: Instruction,
) -> bool {
    if instruction.onward(next).is_some() && marks.len() <= next {
        return true;
    }
    match instruction.jump() {
        Some(way) => { !may_lead(sort, marks.len(), place, way.to) || !marks[way.to].is_settled() }
        None => false,
    }
}

// The place of the first such instruction.
fn first_misleading(sort: Sort, code: &[u8], marks: &[Mark]) -> usize {
    let mut place = 0;
    while let Some((instruction, next)) = decode(code, place) {
        if misleads(sort, marks, place, next, instruction) {
            return place;
        }
        place = next;
    }
    place
}

// The first rule that a unit breaks and the place, where the walk has seen nothing wrong so far.
#[inline(never)]
fn broken_from(context: Context, code: &[u8], walk: Walk, place: usize) -> Option<(UnitRule, usize)>
    requires { IsWalkAt context code.now walk place }
    ensures { MatchOption (rule_in result) (IsValidUnit context code.now)
        (UnitBreaksFirst context code.now) }
{
    let survey = match surveyed(context, code, walk, place) {
        Ok(survey) => survey,
        Err(place) => return Some((UnitRule::Chain, place)),
    };
    if !survey.leads || survey.goes_on || !are_settled(&survey.marks) {
        let place = first_misleading(context.sort, code, &survey.marks);
        return Some((UnitRule::Jump, place));
    }
    if !survey.agrees {
        return Some((UnitRule::Depth, survey.misfit.unwrap_or(0)));
    }
    if !survey.names {
        return Some((UnitRule::Reference, survey.unnamed.unwrap_or(0)));
    }
    None
}

/// The first rule that a unit breaks, if it breaks one, and the first place where it does.
pub fn broken_in_unit(
    alloc: Global,
    context: Context,
    code: &[u8],
) -> Result<Option<(UnitRule, usize)>, AllocError>
    ensures { IfOk result (λ broken. MatchOption (rule_in broken) (IsValidUnit context code.now)
        (UnitBreaksFirst context code.now)) }
{
    let (walk, place) = walked(alloc, context, code)?;
    if code.is_empty() || place < code.len() || walk.goes_on || !are_settled(&walk.marks) {
        return Ok(broken_from(context, code, walk, place));
    }
    Ok(None)
}
