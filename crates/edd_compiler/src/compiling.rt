//! The compiler as one call.

ghost use Rattle.std.specs.Prelude.{◌≡◌, ◌∷◌, [], ℕ, List, IfErr, IfOk, OnOk, map};
ghost use Rattle.edd_syntax.specs.declared.limits.Limit.TheVariants as limit;
ghost use Rattle.edd_syntax.specs.Reference.{Path};
ghost use Rattle.edd_syntax.specs.Item.{Description};
ghost use Rattle.edd_syntax.specs.Accepted.{IsAccepted};
ghost use Rattle.edd_syntax.specs.Refusal.{TooMany};
ghost use Rattle.edd_syntax.specs.Strings.{too_many_strings};
ghost use Rattle.edd_image.specs.Contents.{contents_in};
ghost use Rattle.edd_instructions.specs.MethodAgreement.{Agrees};
ghost use Rattle.edd_instructions.specs.Validity.{IsValid};
ghost use Rattle.edd_syntax.specs.Rows.{rows};
ghost use Rattle.edd_assembly.specs.Views.{lowered_of};
ghost use Rattle.edd_code.specs.Units.{description_of};
ghost use Rattle.edd_compiler.specs.declared.fault.Fault.TheVariants.{Memory};
ghost use Rattle.edd_compiler.specs.Faults.{IsOfLowering, Explains};
ghost use Rattle.edd_compiler.specs.Images.{IsImageOf};
ghost use Rattle.edd_compiler.specs.Lowering.{HasLowered};
ghost use Rattle.edd_compiler.specs.Sources.{IsUnitOf, IsDescriptionOf};

use crate::fault::Fault;
use crate::lowering::{Lowering, lower_rows};
use crate::source::checked_of;
use edd_assembly::{
    assemble, code_is_short, different_strings_count, method_code_is_body_code, methods_agree,
    sections_agree, sections_are_sound, strings_stand_in_rows,
};
use edd_grammar::laws::one_tree;
use edd_image::{WriteFault, fields_are_parts, write};
use edd_instructions::sound_parts_are_valid;
use edd_lexer::laws::one_reading;
use edd_syntax::checked::Checked;
use std::alloc::Global;

// The image of a description, whose rows have this code.
fn write_image(alloc: Global, checked: &Checked, lowering: &Lowering) -> Result<Vec<u8>, Fault>
    requires lowered { HasLowered (description_of checked.now)
        (rows (description_of checked.now).items)
        lowering.now.table (map lowered_of lowering.now.units.items) }
    ensures valid { IfOk result (λ bytes. IsValid bytes.items) }
    ensures agrees { IfOk result
        (λ bytes. Agrees (description_of checked.now) (contents_in bytes.items)) }
    ensures few_strings { OnOk result (too_many_strings (description_of checked.now) ≡ []) }
    ensures refused { IfErr result (λ e. e ≡ Memory) }
{
    different_strings_count();
    strings_stand_in_rows();
    sections_are_sound();
    sections_agree();
    methods_agree();
    method_code_is_body_code();
    sound_parts_are_valid();
    fields_are_parts();
    code_is_short();
    let strings = lowering.table.words();
    let parts = assemble(alloc, checked, &lowering.units, strings)?;
    match write(alloc, &parts) {
        Ok(bytes) => Ok(bytes),
        Err(WriteFault::Memory) => Err(Fault::Memory),
        Err(WriteFault::CodeTooLong) => unreachable!(),
    }
}

// The code of a description, unless it has more strings than a table holds.
fn lower(alloc: Global, checked: &Checked) -> Result<Lowering, Fault>
    ensures sound { IfOk result
        (λ l. HasLowered (description_of checked.now) (rows (description_of checked.now).items)
        l.table
        (map lowered_of l.units.items)) }
    ensures refused { IfErr result
        (IsOfLowering (too_many_strings (description_of checked.now) ≡ TooMany limit.Strings
        ∷ [])) }
{
    different_strings_count();
    strings_stand_in_rows();
    let rows = checked.listed(alloc)?;
    lower_rows(alloc, checked, &rows)
}

/// The image of a description, unless it has more strings than a table holds: that of each text
/// which stands for the description.
pub fn image_from(alloc: Global, checked: &Checked) -> Result<Vec<u8>, Fault>
    ensures sound { (text : List ℕ) → IsDescriptionOf text (description_of checked.now)
        → IfOk result (λ bytes. IsImageOf text bytes.items) }
    ensures refused { (text : List ℕ) → IsDescriptionOf text (description_of checked.now)
        → IfErr result (Explains text) }
    ensures over { IfErr result
        (IsOfLowering (too_many_strings (description_of checked.now) ≡ TooMany limit.Strings
        ∷ [])) }
{
    let lowering = lower(alloc, checked)?;
    write_image(alloc, checked, &lowering)
}

/// The bytes of the image of a text: a valid image, which says and does what the description says
/// and does that the text stands for. A text that has no image is refused with its lexical fault, a
/// syntax fault, or the first rule that it breaks; any text may be refused where memory is, and one
/// that spells an accepted unit for nothing else.
pub fn compile(alloc: Global, text: &[u8]) -> Result<Vec<u8>, Fault>
    ensures sound { IfOk result (λ bytes. IsImageOf text.now bytes.items) }
    ensures refused { IfErr result (Explains text.now) }
    ensures complete { (unit : Description Path) → IsUnitOf text.now unit → IsAccepted unit
        → IfErr result (λ e. e ≡ Memory) }
{
    one_reading();
    one_tree();
    let checked = checked_of(alloc, text)?;
    image_from(alloc, &checked)
}
