//! The list of abort methods.

ghost use Rattle.std.specs.Prelude.{◌≡◌, [], ◌∷◌, ◌++◌, ◌<◌, ◌≤◌, IfNone, IfSome, OnSome, length, nat_le};
ghost use Rattle.edd_instructions.specs.declared.unit.Sort.TheVariants.{Method};
ghost use Rattle.edd_instructions.specs.AbortMethods.{aborting, start_in, start_listed};
ghost use Rattle.edd_image.specs.Contents.{contents_in};
ghost use Rattle.edd_instructions.specs.Steps.{State};
ghost use Rattle.edd_instructions.specs.Validity.{IsValid};
ghost use Rattle.edd_machine.specs.AbortLists.{aborted, methods_of};
ghost use Rattle.edd_machine.specs.Running.{IsUnitOf, start_of};

use crate::code_unit::CodeUnit;
use crate::rows::find_body;
use arrayvec::ArrayVec;
use edd_loader::Image;
use edd_syntax::numbers::MethNo;
use std::marker::Model;

/// At most 8 methods, in order. A contract sees them as a list.
#[derive(Debug, Drop)]
pub struct AbortMethods {
    numbers: ArrayVec<u16, 8>,
}

impl Model for AbortMethods {
    ghost use Rattle.std.specs.Prelude.{List};
    ghost use Rattle.edd_syntax.specs.declared.numbers.MethNo.{MethNo};
    ghost use Rattle.edd_machine.specs.AbortLists.{methods_of};

    ghost Value = { List MethNo };

    ghost view = { λ m. methods_of m.numbers.items };
}

impl AbortMethods {
    /// The empty list.
    pub fn new() -> Self
        ensures { result ≡ [] }
    {
        AbortMethods {
            numbers: ArrayVec::new(),
        }
    }

    /// Whether there is no room.
    pub fn is_full(&self) -> bool
        ensures { result ≡ nat_le 8 (length self.now) }
    {
        self.numbers.is_full()
    }

    /// Puts a method at the end.
    pub fn push(&mut self, method: MethNo)
        requires { length self.old < 8 }
        ensures { self.new ≡ self.old ++ method ∷ [] }
    {
        self.numbers.push(method.0);
    }

    /// The numbers of the methods, in order.
    pub fn numbers(&self) -> &[u16]
        ensures methods { methods_of result.now ≡ self.now }
        ensures room { length result.now ≤ 8 }
    {
        self.numbers.as_slice()
    }

    // Takes the first off.
    fn take_first(&mut self) -> Option<MethNo>
        ensures first { IfSome result (λ method. self.old ≡ method ∷ self.new) }
        ensures none { IfNone result ((self.old ≡ []) × (self.new ≡ [])) }
    {
        let number = self.numbers.pop_at(0)?;
        Some(MethNo(number))
    }

    /// Takes methods off up to the first that has a body, and gives its unit.
    pub fn next_body(&mut self, image: &Image<'_>) -> Option<CodeUnit>
        ensures valid { OnSome result (IsValid image.now) }
        ensures unit { IfSome result (IsUnitOf image.now) }
        ensures sort { IfSome result (λ unit. unit.sort ≡ Method) }
        ensures slots { IfSome result (λ unit. unit.slots ≤ 64) }
        ensures starts { IfSome result (λ unit. (s : State)
            → start_listed (start_in (contents_in image.now)) self.old s
            ≡ aborting (start_of image.now unit) self.new s) }
        ensures left { IfNone result (self.new ≡ []) }
        ensures none { IfNone result ((s : State)
            → start_listed (start_in (contents_in image.now)) self.old s ≡ aborted s) }
    {
        while let Some(method) = self.take_first() {
            if let Some(unit) = find_body(image, method) {
                return Some(unit);
            }
        }
        None
    }
}
