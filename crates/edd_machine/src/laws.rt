//! Laws of states on a unit of an image, for the crates above.

ghost use Rattle.std.specs.Prelude.{◌≡◌, ℕ, ℤ, ◌<◌, List, Some, length};
ghost use Rattle.edd_syntax.specs.Answers.{Answer, IsValidAnswer};
ghost use Rattle.edd_syntax.specs.DeviceValues.{AreDeviceValues};
ghost use Rattle.edd_instructions.specs.declared.requests.Request.{Request};
ghost use Rattle.edd_instructions.specs.declared.records.Status.TheVariants.{Asking};
ghost use Rattle.edd_image.specs.Contents.{AttributeFields, contents_in};
ghost use Rattle.edd_instructions.specs.Execution.{answered};
ghost use Rattle.edd_instructions.specs.Reading.{body_of, opening_of};
ghost use Rattle.edd_instructions.specs.Steps.{State, opening};
ghost use Rattle.edd_instructions.specs.Validity.{IsValid};
ghost use Rattle.edd_syntax.specs.declared.numbers.MethNo.{MethNo};
ghost use Rattle.edd_machine.specs.declared.code_unit.CodeUnit.{CodeUnit};
ghost use Rattle.edd_machine.specs.Running.{unit_at, running_unit, IsStateIn};
ghost use Rattle.edd_machine.specs.Types.{types_in};

/// A state that asks has room for the code of the answer.
pub fn asking_has_room()
    ensures { (b : List ℕ) (u : CodeUnit) (s : State) (r : Request) → IsStateIn b u s
        → s.status ≡ Asking r
        → length s.operands < 128 }
{}

/// A valid answer to a state that asks gives a state on the same unit again.
pub fn answers_stay_in_the_unit()
    ensures { (b : List ℕ) (u : CodeUnit) (s : State) (r : Request) (answer : Answer)
        → IsStateIn b u s
        → s.status ≡ Asking r → IsValidAnswer (types_in b) answer
        → IsStateIn b u (answered s answer).state }
{}

/// Any values of the device may stand in a state in place of its own.
pub fn values_may_be_set()
    ensures { (b : List ℕ) (u : CodeUnit) (s : State) (values : List ℤ) → IsStateIn b u s
        → AreDeviceValues (types_in b) values
        → IsStateIn b u (record s { values = values }) }
{}

/// The unit of a method's body opens as its row does.
pub fn bodies_open_as_their_rows()
    ensures { (b : List ℕ) (m : MethNo) (row : AttributeFields) (values : List ℤ) → IsValid b
        → body_of (contents_in b) m ≡ Some row
        → opening (running_unit b (unit_at b row)) (unit_at b row).slots values
        ≡ opening_of (contents_in b) row values }
{}
