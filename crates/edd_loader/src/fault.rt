//! Why bytes are no image.

ghost use Rattle.std.specs.Prelude.{◌≡◌, Some};
ghost use Rattle.edd_loader.specs.declared.fault.LoadFault.TheVariants.{Memory};
ghost use Rattle.edd_loader.specs.Faults.{rule_of};

use edd_instructions::{Rule, UnitRule};
use std::alloc::{AllocError, AllocFailed};
use thiserror::Error;

/// The first rule of an image that is broken, or out of memory. Each fault but `Memory` prints its
/// number and its kind.
#[derive(Clone, Copy, Debug, PartialEq, Eq, Error)]
pub enum LoadFault {
    #[error("101 SHORT")]
    Short,
    #[error("102 MAGIC")]
    Magic,
    #[error("103 VERSION")]
    Version,
    #[error("104 LENGTH")]
    Length,
    #[error("105 ROW")]
    Row,
    #[error("106 NAME")]
    Name,
    #[error("107 TEXT")]
    Text,
    #[error("108 INSTRUCTION")]
    Instruction,
    #[error("109 JUMP")]
    Jump,
    #[error("110 DEPTH")]
    Depth,
    #[error("111 REFERENCE")]
    Reference,
    #[error("no memory")]
    Memory,
}

impl From<AllocError> for LoadFault {
    ghost from_gives = { λ _ e. e ≡ Memory };

    fn from(_e: AllocError) -> LoadFault {
        LoadFault::Memory
    }
}

impl<T: Drop> From<AllocFailed<T>> for LoadFault {
    ghost from_gives = { λ _ e. e ≡ Memory };

    fn from(_e: AllocFailed<T>) -> LoadFault {
        LoadFault::Memory
    }
}

/// The fault of a rule that is broken.
pub fn fault_of(rule: Rule) -> LoadFault
    ensures { rule_of result ≡ Some rule }
{
    match rule {
        Rule::Short => LoadFault::Short,
        Rule::Magic => LoadFault::Magic,
        Rule::Version => LoadFault::Version,
        Rule::Length => LoadFault::Length,
        Rule::Row => LoadFault::Row,
        Rule::Name => LoadFault::Name,
        Rule::Text => LoadFault::Text,
        Rule::Unit(UnitRule::Chain) => LoadFault::Instruction,
        Rule::Unit(UnitRule::Jump) => LoadFault::Jump,
        Rule::Unit(UnitRule::Depth) => LoadFault::Depth,
        Rule::Unit(UnitRule::Reference) => LoadFault::Reference,
    }
}
