//! What the rules on a unit speak of.

ghost use Rattle.std.specs.Prelude.{◌≡◌};
ghost use Rattle.edd_instructions.specs.Units.{takes, onward, jump, allowed, is_allowed};
ghost use Rattle.edd_instructions.specs.References.{named_exist, names_exist, request_exists};

use crate::instruction::{Ask, Instruction};
use edd_image::{Counts, Version};
use edd_syntax::numbers::{StrNo, VarNo};
use edd_syntax::operators::Parameter;

/// Whether a unit gives an attribute or runs a method.
#[derive(Clone, Copy, PartialEq, Eq, Debug)]
pub enum Sort {
    Attribute,
    Method,
}

/// Where a unit is: the image's version and counts, the unit's sort and, for a method, its number
/// of slots.
#[derive(Clone, Copy, PartialEq, Eq, Debug)]
pub struct Context {
    pub version: Version,
    pub counts: Counts,
    pub sort: Sort,
    pub slots: u16,
}

/// A way from an instruction to the next: the place, and how many operands it puts there in place
/// of those that it took.
#[derive(Clone, Copy, PartialEq, Eq, Debug)]
pub struct Way {
    pub to: usize,
    pub leaves: u8,
}

impl Instruction {
    /// How many operands it takes off the stack, or reads there.
    #[inline(always)]
    pub fn takes(self) -> u8
        ensures { result ≡ takes self }
    {
        match self {
            Instruction::Store(_)
            | Instruction::SetLocal(_)
            | Instruction::Pop
            | Instruction::Duplicate
            | Instruction::Negate
            | Instruction::Not
            | Instruction::Complement
            | Instruction::JumpIfZero(_)
            | Instruction::JumpIfNotZero(_)
            | Instruction::Case { .. }
            | Instruction::Number
            | Instruction::ReadElement(_) => 1,
            Instruction::Operate(_) | Instruction::Compare(_) => 2,
            Instruction::Ask(request) => request.kind.numbers_taken(),
            _ => 0,
        }
    }

    /// The way to the instruction after it, at `next`.
    #[inline(always)]
    pub fn onward(self, next: usize) -> Option<Way>
        ensures { result ≡ onward self next }
    {
        let leaves = match self {
            Instruction::End | Instruction::Jump(_) | Instruction::Abort => return None,
            Instruction::Duplicate => 2,
            Instruction::Push(_)
            | Instruction::Variable(_)
            | Instruction::Store(_)
            | Instruction::GetLocal(_)
            | Instruction::SetLocal(_)
            | Instruction::Operate(_)
            | Instruction::Compare(_)
            | Instruction::Negate
            | Instruction::Not
            | Instruction::Complement
            | Instruction::Case { .. }
            | Instruction::ReadElement(_)
            | Instruction::Ask(_)
            | Instruction::AddAbortMethod(_) => 1,
            _ => 0,
        };
        Some(Way { to: next, leaves })
    }

    /// The way to its target.
    #[inline(always)]
    pub fn jump(self) -> Option<Way>
        ensures { result ≡ jump self }
    {
        match self {
            Instruction::Jump(target)
            | Instruction::JumpIfZero(target)
            | Instruction::JumpIfNotZero(target)
            | Instruction::Case { target, .. } => Some(Way {
                to: target as usize,
                leaves: 0,
            }),
            _ => None,
        }
    }

    // Whether the unit of an attribute may have it.
    #[inline(always)]
    fn is_in_attributes(self, version: Version) -> bool
        ensures { result ≡ (allowed version self).in_attributes }
    {
        match self {
            Instruction::Store(_)
            | Instruction::GetLocal(_)
            | Instruction::SetLocal(_)
            | Instruction::Ask(_)
            | Instruction::Abort
            | Instruction::AddAbortMethod(_) => false,
            Instruction::ReadElement(_) | Instruction::Element { .. } => {
                matches!(version, Version::Two)
            }
            _ => true,
        }
    }

    // Whether the unit of a method may have it.
    #[inline(always)]
    fn is_in_methods(self, version: Version) -> bool
        ensures { result ≡ (allowed version self).in_methods }
    {
        match self {
            Instruction::Text(_)
            | Instruction::Number
            | Instruction::Item { .. }
            | Instruction::DataConst(_)
            | Instruction::DataVar { .. }
            | Instruction::Enumerator { .. }
            | Instruction::Response { .. }
            | Instruction::Member { .. }
            | Instruction::Element { .. } => false,
            Instruction::ReadElement(_) | Instruction::AddAbortMethod(_) => {
                matches!(version, Version::Two)
            }
            _ => true,
        }
    }

    /// Whether a unit of this sort may have it in an image of this version.
    #[inline(always)]
    pub fn is_allowed(self, version: Version, sort: Sort) -> bool
        ensures { result ≡ is_allowed version sort self }
    {
        match sort {
            Sort::Attribute => self.is_in_attributes(version),
            Sort::Method => self.is_in_methods(version),
        }
    }
}

// Whether there is all that two operands name, one after the other.
fn has_named(counts: Counts, parameters: &[Parameter], first: u16, second: u16) -> bool
    ensures { result ≡ named_exist counts parameters.now first second }
{
    match parameters {
        [] => true,
        [Parameter::Text, more @ ..] => {
            counts.has_string(StrNo(first)) && has_named(counts, more, second, 0)
        }
        [Parameter::DeviceVariable, more @ ..] => {
            counts.has_variable(VarNo(first)) && has_named(counts, more, second, 0)
        }
        [_, more @ ..] => has_named(counts, more, first, second),
    }
}

// Whether there is all that a request names.
fn has_request(counts: Counts, request: Ask) -> bool
    ensures { result ≡ request_exists counts request }
{
    has_named(
        counts,
        request.kind.parameters(),
        request.first,
        request.second,
    )
}

impl Context {
    /// Whether there is all that an instruction names.
    #[inline(always)]
    pub fn has_names(self, instruction: Instruction) -> bool
        ensures { result ≡ names_exist self instruction }
    {
        let counts = self.counts;
        match instruction {
            Instruction::Variable(v) | Instruction::Store(v) => counts.has_variable(v),
            Instruction::DataVar { var, .. } => counts.has_variable(var),
            Instruction::ReadElement(array) => counts.has_array(array),
            Instruction::AddAbortMethod(method) => counts.has_method(method),
            Instruction::GetLocal(slot) | Instruction::SetLocal(slot) => slot < self.slots,
            Instruction::Text(s) => counts.has_string(s),
            Instruction::Response { text, .. } => counts.has_string(text),
            Instruction::Item { item, .. } => counts.has_item(item),
            Instruction::Enumerator { text, help, .. } => {
                counts.has_string(text) && counts.has_optional_string(help)
            }
            Instruction::Member {
                name,
                item,
                label,
                help,
            } => {
                counts.has_string(name)
                    && counts.has_item(item)
                    && counts.has_optional_string(label)
                    && counts.has_optional_string(help)
            }
            Instruction::Element {
                var,
                label,
                help,
                ..
            } => {
                counts.has_variable(var)
                    && counts.has_optional_string(label)
                    && counts.has_optional_string(help)
            }
            Instruction::Ask(request) => has_request(counts, request),
            _ => true,
        }
    }
}
