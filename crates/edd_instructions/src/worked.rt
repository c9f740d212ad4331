//! Small images by hand, as laws: the layouts of their parts, valid, with each edit the rule that
//! it breaks, and what their methods do.

ghost use Rattle.std.specs.Prelude.{◌≡◌, [], ◌∷◌, pos, take, slice_set};
ghost use Rattle.edd_instructions.specs.declared.records.Record.TheVariants as records;
ghost use Rattle.edd_instructions.specs.declared.rules.Rule.TheVariants as rule;
ghost use Rattle.edd_instructions.specs.declared.rules.UnitRule.TheVariants as unit_rule;
ghost use Rattle.edd_image.specs.Layout.{layout};
ghost use Rattle.edd_instructions.specs.Validity.{IsValid, BreaksFirst};
ghost use Rattle.edd_instructions.specs.Reading.{IsReading, Records, NoItem};
ghost use Rattle.edd_image.specs.Contents.{contents_in};
ghost use Rattle.edd_instructions.specs.MethodAgreement.{AgreesOnMethods};
ghost use Rattle.edd_instructions.specs.WorkedMethods.{loop_unit, end_image, asking_unit, asking_parts, asking_image, image_with, exchanged_code, unasked_code};
ghost use Rattle.edd_instructions.specs.Worked.{empty_parts, empty_image, loop_parts, loop_image, with_code, label_parts, label_image, label_of, handling_of};

/// The bytes of the images are the layouts of their parts.
pub fn worked_layouts()
    ensures empty { layout empty_parts ≡ empty_image }
    ensures endless { layout loop_parts ≡ loop_image }
    ensures label { layout label_parts ≡ label_image }
    ensures asking { layout asking_parts ≡ asking_image }
{}

/// The images are valid.
pub fn worked_images_are_valid()
    ensures empty { IsValid empty_image }
    ensures endless { IsValid loop_image }
    ensures label { IsValid label_image }
    ensures asking { IsValid asking_image }
{}

/// Each edit breaks one rule and none before it.
pub fn edits_break_their_rules()
    ensures first_55 { BreaksFirst (take 55 loop_image) rule.Short }
    ensures first_85 { BreaksFirst (take 85 loop_image) rule.Length }
    ensures other_magic { BreaksFirst (slice_set loop_image 0 0x00) rule.Magic }
    ensures other_version { BreaksFirst (slice_set loop_image 5 0x03) rule.Version }
    ensures unknown_kind { BreaksFirst (slice_set loop_image 64 0x09) rule.Row }
    ensures blank_name { BreaksFirst (slice_set loop_image 85 0x20) rule.Name }
    ensures unknown_tag { BreaksFirst (slice_set label_image 97 0x02) rule.Text }
    ensures unknown_instruction { BreaksFirst (slice_set loop_image 80 0xff)
        (rule.Unit unit_rule.Chain) }
    ensures jump_between { BreaksFirst (slice_set loop_image 84 0x01) (rule.Unit unit_rule.Jump) }
    ensures attribute_loops { BreaksFirst (slice_set loop_image 65 0x06)
        (rule.Unit unit_rule.Jump) }
    ensures pop_of_nothing { BreaksFirst (with_code 0x06 0x00 0x00 0x00 0x00)
        (rule.Unit unit_rule.Depth) }
    ensures duplicate_of_nothing { BreaksFirst (with_code 0x07 0x00 0x00 0x00 0x00)
        (rule.Unit unit_rule.Depth) }
    ensures variable_missing { BreaksFirst (with_code 0x02 0x00 0x00 0x06 0x00)
        (rule.Unit unit_rule.Reference) }
{}

/// What is read of the variable `p` when it is 0.
pub fn label_is_read()
    ensures label { IsReading label_image (label_of 0) (pos 0 ∷ [])
        (Records (records.Words (record { 0 = 0 }) ∷ [])) }
    ensures default { IsReading label_image (handling_of 0) (pos 0 ∷ [])
        (Records (records.Number (pos 3) ∷ [])) }
    ensures missing { IsReading label_image (label_of 1) (pos 0 ∷ []) NoItem }
{}

/// The image with a loop does what the method `while (1) { }` does: it goes on, and asks and
/// changes nothing. With an end in place of the loop it doesn't.
pub fn endless_loops_agree()
    ensures a_loop { AgreesOnMethods loop_unit (contents_in loop_image) }
    ensures an_end { AgreesOnMethods loop_unit (contents_in end_image) → ⊥ }
{}

/// The image with a loop over a value of the device does what its method does, under all values and
/// all valid answers: the same request and the same two changes in each turn, and the same end. Two
/// valid images don't: one that changes `y` before `x`, and one that asks nothing.
pub fn asking_loops_agree()
    ensures asking { AgreesOnMethods asking_unit (contents_in asking_image) }
    ensures exchanged { IsValid (image_with exchanged_code)
        × (AgreesOnMethods asking_unit (contents_in (image_with exchanged_code)) → ⊥) }
    ensures unasked { IsValid (image_with unasked_code)
        × (AgreesOnMethods asking_unit (contents_in (image_with unasked_code)) → ⊥) }
{}
