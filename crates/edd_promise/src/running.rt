//! Runs of an image.

ghost use Rattle.std.specs.Prelude.{◌≡◌, ℕ, ℤ, List, Some};
ghost use Rattle.std.specs.List.{AllByRecursion};
ghost use Rattle.edd_syntax.specs.declared.numbers.MethNo.{MethNo};
ghost use Rattle.edd_syntax.specs.Answers.{Answer, IsValidAnswer};
ghost use Rattle.edd_syntax.specs.DeviceValues.{AreDeviceValues};
ghost use Rattle.edd_image.specs.Contents.{AttributeFields, contents_in};
ghost use Rattle.edd_instructions.specs.AbortMethods.{execute_in};
ghost use Rattle.edd_instructions.specs.Execution.{IsGoodEnding};
ghost use Rattle.edd_instructions.specs.Reading.{body_of, opening_of};
ghost use Rattle.edd_instructions.specs.Validity.{IsValid};
ghost use Rattle.edd_instructions.specs.Steps.{State};
ghost use Rattle.edd_machine.specs.Types.{types_in};
ghost use Rattle.edd_port.specs.Runs.{IsRun};

/// A method of a valid image always goes on: under values of a device and valid answers no run of
/// it gets stuck, also in its abort methods, and no answer is bad.
pub fn valid_images_are_never_stuck()
    ensures methods { (b : List ℕ) (method : MethNo) (row : AttributeFields) (values : List ℤ)
        (steps : ℕ) (answers : List Answer) → IsValid b
        → body_of (contents_in b) method ≡ Some row → AreDeviceValues (types_in b) values
        → AllByRecursion (IsValidAnswer (types_in b)) answers
        → IsGoodEnding (execute_in (contents_in b) steps (opening_of (contents_in b) row values)
        answers).ending }
    ensures sessions { (b : List ℕ) (s : State) → IsRun b s → (steps : ℕ) (answers : List Answer)
        → AllByRecursion (IsValidAnswer (types_in b)) answers
        → IsGoodEnding (execute_in (contents_in b) steps s answers).ending
        × IsRun b (execute_in (contents_in b) steps s answers).state }
{}
