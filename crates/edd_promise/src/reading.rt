//! What is read of a compiled image.

ghost use Rattle.std.specs.Prelude.{◌≡◌, ℕ, ℤ, List, Ok, Some, option_map};
ghost use Rattle.edd_syntax.specs.declared.numbers.AttrRef.{AttrRef};
ghost use Rattle.edd_syntax.specs.declared.numbers.StrNo.{StrNo};
ghost use Rattle.edd_syntax.specs.Words.{Words, text_for};
ghost use Rattle.edd_syntax.specs.DeviceValues.{AreDeviceValues};
ghost use Rattle.edd_syntax.specs.Attributes as source;
ghost use Rattle.edd_syntax.specs.Attributes.{read_attribute};
ghost use Rattle.edd_image.specs.Contents.{contents_in};
ghost use Rattle.edd_instructions.specs.declared.records.Record.{Record};
ghost use Rattle.edd_instructions.specs.Agreement.{IsString, SameReading, SameRecords, string_numbered};
ghost use Rattle.edd_instructions.specs.Reading.{Reading, Records, IsReading, reading_within};
ghost use Rattle.edd_instructions.specs.Validity.{IsValid};
ghost use Rattle.edd_loader.specs.Texts.{given};
ghost use Rattle.edd_machine.specs.declared.fault.ReadFault.{ReadFault};
ghost use Rattle.edd_machine.specs.Faults.{IsReadFault};
ghost use Rattle.edd_machine.specs.Types.{types_in};
ghost use Rattle.edd_compiler.specs.Images.{IsImageOf};
ghost use Rattle.edd_promise.specs.Reads.{IsRefusedRead, is_key, unit_length};

/// What `attribute` gives of what `compile` gave is what the unit's attribute means, for each
/// attribute and all values of a device.
///
/// `read`: the records that it gives are those of the unit. `refused`: its faults are the unit's.
/// `complete`: whatever the unit's attribute is, the image has that reading, and no other.
pub fn compiled_attributes_read()
    ensures read { (text b : List ℕ) (is : IsImageOf text b) (ref : AttrRef) (device : List ℤ)
        (records : List Record) → AreDeviceValues (types_in b) device
        → IsReading b ref device (Records records)
        → (meant : List source.Record)
        × (read_attribute is.accepted.resolved ref device ≡ source.Gives (Ok meant))
        × SameRecords (string_numbered (contents_in b)) meant records }
    ensures refused { (text b : List ℕ) (is : IsImageOf text b) (ref : AttrRef) (device : List ℤ)
        (fault : ReadFault) → IsReadFault b ref device fault
        → IsRefusedRead is.accepted.resolved ref device fault }
    ensures complete { (text b : List ℕ) (is : IsImageOf text b) (ref : AttrRef)
        (device : List ℤ) → AreDeviceValues (types_in b) device
        → (r : Reading) × IsReading b ref device r
        × SameReading (string_numbered (contents_in b))
        (read_attribute is.accepted.resolved ref device) r
        × ((other : Reading) → IsReading b ref device other → other ≡ r) }
{}

/// The text that `Image::text` gives for a language is the text that the unit's string has for it, and
/// is said to be a key of the dictionary exactly where that string is one, where the number stands for
/// that string: where a record of an attribute or a request says it.
pub fn compiled_texts_read()
    ensures { (b : List ℕ) (words : Words) (n : StrNo) (code : List ℕ)
        → IsString (string_numbered (contents_in b)) words n
        → option_map (λ w. given w code) (string_numbered (contents_in b) n)
        ≡ Some (is_key words, text_for words code) }
{}

/// What is read of an attribute of a valid image, compiled or not, under values of a device is read
/// within as many steps as its unit has bytes.
pub fn attributes_are_read_in_few_steps()
    ensures { (b : List ℕ) (ref : AttrRef) (device : List ℤ) (r : Reading) → IsValid b
        → AreDeviceValues (types_in b) device → IsReading b ref device r
        → reading_within (unit_length (contents_in b) ref) (contents_in b) ref device ≡ Some r }
{}
