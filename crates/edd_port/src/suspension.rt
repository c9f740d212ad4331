//! A session apart from its image, which may be kept and resumed.

ghost use Rattle.std.specs.Prelude.{◌≡◌, ◌↔◌, IfErr, IfOk, IsTrue, OnErr, OnOk};
ghost use Rattle.edd_instructions.specs.declared.unit.Sort.TheVariants.{Method};
ghost use Rattle.edd_instructions.specs.Validity.{IsValid};
ghost use Rattle.edd_machine.specs.Running.{IsUnitOf};
ghost use Rattle.edd_port.specs.Suspensions.{IsBodyIn, IsSuspendedIn, run_of};

use crate::runs::is_run;
use crate::session::Session;
use edd_loader::Image;
use edd_machine::{CodeUnit, Machine, Values, find_body};
use edd_syntax::numbers::MethNo;

/// A session without its image: plain numbers, and the values of the device.
#[derive(Debug, Drop)]
pub struct Suspended {
    pub machine: Machine,
    pub values: Values,
    /// How many instructions were executed so far.
    pub taken: u64,
}

// Whether the unit is that of the body of the method whose number it has.
fn is_body(image: &Image<'_>, unit: CodeUnit) -> bool
    ensures body { IsTrue result ↔ IsBodyIn image.now unit }
    ensures valid { IsTrue result → IsValid image.now }
    ensures unit { IsTrue result → IsUnitOf image.now unit }
    ensures sort { IsTrue result → unit.sort ≡ Method }
{
    match find_body(image, MethNo(unit.item)) {
        Some(body) => body == unit,
        None => false,
    }
}

impl<'i, 'b> Session<'i, 'b> {
    /// What the session is apart from its image. Over that image it can be resumed.
    pub fn suspend(self) -> Suspended
        ensures run { run_of self.entry.image result ≡ self.entry }
        ensures resumable { IsSuspendedIn self.entry.image result }
    {
        Suspended {
            machine: self.machine,
            values: self.values,
            taken: self.taken,
        }
    }

    /// The session that was suspended over this image. What can't be one is handed back: its unit
    /// is not the body of its method in this image, or what it is is no state of that method. It
    /// takes no memory.
    pub fn resume(image: &'i Image<'b>, suspended: Suspended) -> Result<Session<'i, 'b>, Suspended>
        ensures sound { IfOk result (λ session. session ≡ run_of image.now suspended) }
        ensures accepted { OnOk result (IsSuspendedIn image.now suspended) }
        ensures refused { OnErr result (¬ IsSuspendedIn image.now suspended) }
        ensures kept { IfErr result (λ given. given ≡ suspended) }
    {
        if !is_body(image, suspended.machine.unit) {
            return Err(suspended);
        }
        if !is_run(
            image,
            &suspended.machine,
            suspended.values.numbers.as_slice(),
        ) {
            return Err(suspended);
        }
        Ok(Session {
            image,
            machine: suspended.machine,
            values: suspended.values,
            taken: suspended.taken,
        })
    }
}
