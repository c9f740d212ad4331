//! The numbers of types, kinds, attributes and what records hold, as docs/IMAGE.md has them.

ghost use Rattle.std.specs.Prelude.{◌≡◌, true, false, Some, None};
ghost use Rattle.edd_syntax.specs.declared.numbers.Attr.TheVariants as attr;
ghost use Rattle.edd_syntax.specs.declared.numbers.Kind.TheVariants as kind;
ghost use Rattle.edd_syntax.specs.declared.types.Handling.TheVariants as handling;
ghost use Rattle.edd_syntax.specs.declared.types.Operation.TheVariants as operation;
ghost use Rattle.edd_syntax.specs.declared.types.ResponseClass.TheVariants as class;
ghost use Rattle.edd_syntax.specs.declared.types.VarType.TheVariants as var_type;
ghost use Rattle.edd_syntax.specs.Attributes.{data_bits, handling_number, menu_bits, operation_number};
ghost use Rattle.edd_syntax.specs.Numbers.{attr_from_number, attr_number, kind_number};
ghost use Rattle.edd_image.specs.Contents.{type_of};
ghost use Rattle.edd_image.specs.Layout.{type_code};
ghost use Rattle.edd_instructions.specs.Agreement.{class_number};

/// Types are numbered from 1 to 4, and kinds from 1 to 6.
pub fn type_and_kind_numbers()
    ensures integer { (type_code var_type.Integer ≡ 1) × (type_of 1 ≡ Some var_type.Integer) }
    ensures unsigned_integer { (type_code var_type.UnsignedInteger ≡ 2)
        × (type_of 2 ≡ Some var_type.UnsignedInteger) }
    ensures enumerated { (type_code var_type.Enumerated ≡ 3)
        × (type_of 3 ≡ Some var_type.Enumerated) }
    ensures bit_enumerated { (type_code var_type.BitEnumerated ≡ 4)
        × (type_of 4 ≡ Some var_type.BitEnumerated) }
    ensures no_other_type { (type_of 0 ≡ None) × (type_of 5 ≡ None) }
    ensures variable { kind_number kind.Variable ≡ 1 }
    ensures command { kind_number kind.Command ≡ 2 }
    ensures menu { kind_number kind.Menu ≡ 3 }
    ensures collection { kind_number kind.Collection ≡ 4 }
    ensures method { kind_number kind.Method ≡ 5 }
    ensures array { kind_number kind.Array ≡ 6 }
{}

/// Attributes are numbered from 1 to 22.
pub fn attribute_numbers()
    ensures label { (attr_number attr.Label ≡ 1) × (attr_from_number 1 ≡ Some attr.Label) }
    ensures help { (attr_number attr.Help ≡ 2) × (attr_from_number 2 ≡ Some attr.Help) }
    ensures class { (attr_number attr.Class ≡ 3) × (attr_from_number 3 ≡ Some attr.Class) }
    ensures handling { (attr_number attr.Handling ≡ 4)
        × (attr_from_number 4 ≡ Some attr.Handling) }
    ensures constant_unit { (attr_number attr.ConstantUnit ≡ 5)
        × (attr_from_number 5 ≡ Some attr.ConstantUnit) }
    ensures validity { (attr_number attr.Validity ≡ 6)
        × (attr_from_number 6 ≡ Some attr.Validity) }
    ensures default_value { (attr_number attr.DefaultValue ≡ 7)
        × (attr_from_number 7 ≡ Some attr.DefaultValue) }
    ensures min_value { (attr_number attr.MinValue ≡ 8)
        × (attr_from_number 8 ≡ Some attr.MinValue) }
    ensures max_value { (attr_number attr.MaxValue ≡ 9)
        × (attr_from_number 9 ≡ Some attr.MaxValue) }
    ensures display_format { (attr_number attr.DisplayFormat ≡ 10)
        × (attr_from_number 10 ≡ Some attr.DisplayFormat) }
    ensures edit_format { (attr_number attr.EditFormat ≡ 11)
        × (attr_from_number 11 ≡ Some attr.EditFormat) }
    ensures enumerators { (attr_number attr.Enumerators ≡ 12)
        × (attr_from_number 12 ≡ Some attr.Enumerators) }
    ensures number { (attr_number attr.Number ≡ 13) × (attr_from_number 13 ≡ Some attr.Number) }
    ensures operation { (attr_number attr.Operation ≡ 14)
        × (attr_from_number 14 ≡ Some attr.Operation) }
    ensures transaction { (attr_number attr.Transaction ≡ 15)
        × (attr_from_number 15 ≡ Some attr.Transaction) }
    ensures request { (attr_number attr.Request ≡ 16)
        × (attr_from_number 16 ≡ Some attr.Request) }
    ensures reply { (attr_number attr.Reply ≡ 17) × (attr_from_number 17 ≡ Some attr.Reply) }
    ensures response_codes { (attr_number attr.ResponseCodes ≡ 18)
        × (attr_from_number 18 ≡ Some attr.ResponseCodes) }
    ensures items { (attr_number attr.Items ≡ 19) × (attr_from_number 19 ≡ Some attr.Items) }
    ensures members { (attr_number attr.Members ≡ 20)
        × (attr_from_number 20 ≡ Some attr.Members) }
    ensures definition { (attr_number attr.Definition ≡ 21)
        × (attr_from_number 21 ≡ Some attr.Definition) }
    ensures elements { (attr_number attr.Elements ≡ 22)
        × (attr_from_number 22 ≡ Some attr.Elements) }
{}

/// What records hold: classes of response codes, rights, operations, and qualifiers as bits.
pub fn record_numbers()
    ensures success { class_number class.Success ≡ 0 }
    ensures misc_warning { class_number class.MiscWarning ≡ 1 }
    ensures data_entry_warning { class_number class.DataEntryWarning ≡ 2 }
    ensures data_entry_error { class_number class.DataEntryError ≡ 3 }
    ensures mode_error { class_number class.ModeError ≡ 4 }
    ensures process_error { class_number class.ProcessError ≡ 5 }
    ensures misc_error { class_number class.MiscError ≡ 6 }
    ensures handling_read { handling_number handling.Read ≡ 1 }
    ensures handling_write { handling_number handling.Write ≡ 2 }
    ensures handling_both { handling_number handling.ReadWrite ≡ 3 }
    ensures operation_read { operation_number operation.Read ≡ 1 }
    ensures operation_write { operation_number operation.Write ≡ 2 }
    ensures operation_command { operation_number operation.Command ≡ 3 }
    ensures display_value { menu_bits
        (record { display_value = true; read_only = false; hidden = false; review = false }) ≡ 1 }
    ensures read_only { menu_bits
        (record { display_value = false; read_only = true; hidden = false; review = false }) ≡ 2 }
    ensures hidden { menu_bits
        (record { display_value = false; read_only = false; hidden = true; review = false }) ≡ 4 }
    ensures review { menu_bits
        (record { display_value = false; read_only = false; hidden = false; review = true }) ≡ 8 }
    ensures info { data_bits (record { info = true; index = false }) ≡ 1 }
    ensures index { data_bits (record { info = false; index = true }) ≡ 2 }
{}
