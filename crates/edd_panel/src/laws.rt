//! Laws of the definitions, for readers and callers.

ghost use Rattle.std.specs.Prelude.{◌≡◌, ℕ, ℤ, Bool, List, [], Option};
ghost use Rattle.edd_syntax.specs.declared.numbers.VarNo.{VarNo};
ghost use Rattle.edd_panel.specs.declared.fault.EditFault.{EditFault};
ghost use Rattle.edd_image.specs.Fields.{counts_in};
ghost use Rattle.edd_machine.specs.Types.{types_in};
ghost use Rattle.edd_panel.specs.Edits.{Decides, reads_of};
ghost use Rattle.edd_panel.specs.Sittings.{AreExplained, IsSitting, Step};
ghost use Rattle.edd_panel.specs.Standing.{opened};

use edd_instructions::readings_are_unique;

/// An edit has one fault, or none: so one that may be made is never refused, and one that is
/// refused has no other fault.
pub fn edits_are_decided()
    ensures { (b : List ℕ) (values : List ℤ) (v : VarNo) (read_only : Bool) (n : ℤ)
        (one other : Option EditFault) → Decides b values v read_only n one
        → Decides b values v read_only n other → one ≡ other }
{
    readings_are_unique();
}

/// In every sitting a value changes only by a method that ran or by an edit: of exactly the variable
/// that is open, to the number that was typed, where its rules allow that. The variable, and each
/// level on the way to it, was offered at its moment: by an entry that is neither READ_ONLY nor
/// HIDDEN, of an item whose VALIDITY is not 0 and doesn't trap.
pub fn sittings_are_explained()
    ensures { (b : List ℕ) (values : List ℤ) (steps : List Step)
        → IsSitting (types_in b) (opened b values) steps
        → AreExplained (counts_in b) (types_in b) (reads_of b) [] (opened b values) steps }
{}
