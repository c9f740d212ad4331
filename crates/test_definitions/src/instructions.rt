//! The bytes of each instruction, as docs/IMAGE.md has them.

ghost use Rattle.std.specs.Prelude.{[], ◌∷◌, pos, negsuc, Some, None};
ghost use Rattle.edd_syntax.specs.declared.numbers.ItemNo.TheVariants as items;
ghost use Rattle.edd_syntax.specs.declared.operators.Operator.TheVariants as operator;
ghost use Rattle.edd_syntax.specs.declared.operators.Comparison.TheVariants as comparison;
ghost use Rattle.edd_syntax.specs.declared.operators.RequestKind.TheVariants as kind;
ghost use Rattle.edd_instructions.specs.declared.instruction.Instruction.TheVariants as instruction;
ghost use Rattle.test_definitions.specs.Bytes.{IsWritten, asks};

/// Constants, variables, slots and the stack.
pub fn basic_bytes()
    ensures end { IsWritten instruction.End (0x00 ∷ []) }
    ensures push { IsWritten (instruction.Push 0x01020304)
        (0x01 ∷ 0x01 ∷ 0x02 ∷ 0x03 ∷ 0x04 ∷ []) }
    ensures variable { IsWritten (instruction.Variable (record { 0 = 0x0102 }))
        (0x02 ∷ 0x01 ∷ 0x02 ∷ []) }
    ensures store { IsWritten (instruction.Store (record { 0 = 0x0102 }))
        (0x03 ∷ 0x01 ∷ 0x02 ∷ []) }
    ensures get_local { IsWritten (instruction.GetLocal 0x0102) (0x04 ∷ 0x01 ∷ 0x02 ∷ []) }
    ensures set_local { IsWritten (instruction.SetLocal 0x0102) (0x05 ∷ 0x01 ∷ 0x02 ∷ []) }
    ensures pop { IsWritten instruction.Pop (0x06 ∷ []) }
    ensures duplicate { IsWritten instruction.Duplicate (0x07 ∷ []) }
    ensures read_element { IsWritten (instruction.ReadElement (record { 0 = 0x0102 }))
        (0x08 ∷ 0x01 ∷ 0x02 ∷ []) }
{}

/// Operators and comparisons.
pub fn operator_bytes()
    ensures add { IsWritten (instruction.Operate operator.Add) (0x10 ∷ []) }
    ensures subtract { IsWritten (instruction.Operate operator.Subtract) (0x11 ∷ []) }
    ensures multiply { IsWritten (instruction.Operate operator.Multiply) (0x12 ∷ []) }
    ensures divide { IsWritten (instruction.Operate operator.Divide) (0x13 ∷ []) }
    ensures remainder { IsWritten (instruction.Operate operator.Remainder) (0x14 ∷ []) }
    ensures shift_left { IsWritten (instruction.Operate operator.ShiftLeft) (0x15 ∷ []) }
    ensures shift_right { IsWritten (instruction.Operate operator.ShiftRight) (0x16 ∷ []) }
    ensures and { IsWritten (instruction.Operate operator.And) (0x17 ∷ []) }
    ensures or { IsWritten (instruction.Operate operator.Or) (0x18 ∷ []) }
    ensures xor { IsWritten (instruction.Operate operator.Xor) (0x19 ∷ []) }
    ensures equal { IsWritten (instruction.Compare comparison.Equal) (0x1a ∷ []) }
    ensures not_equal { IsWritten (instruction.Compare comparison.NotEqual) (0x1b ∷ []) }
    ensures less { IsWritten (instruction.Compare comparison.Less) (0x1c ∷ []) }
    ensures less_or_equal { IsWritten (instruction.Compare comparison.LessOrEqual) (0x1d ∷ []) }
    ensures greater { IsWritten (instruction.Compare comparison.Greater) (0x1e ∷ []) }
    ensures greater_or_equal { IsWritten (instruction.Compare comparison.GreaterOrEqual)
        (0x1f ∷ []) }
    ensures negate { IsWritten instruction.Negate (0x20 ∷ []) }
    ensures not { IsWritten instruction.Not (0x21 ∷ []) }
    ensures complement { IsWritten instruction.Complement (0x22 ∷ []) }
{}

/// Jumps, with their targets and a label, and what leads elsewhere.
pub fn jump_bytes()
    ensures jump { IsWritten (instruction.Jump 0x01020304)
        (0x30 ∷ 0x01 ∷ 0x02 ∷ 0x03 ∷ 0x04 ∷ []) }
    ensures jump_if_zero { IsWritten (instruction.JumpIfZero 0x01020304)
        (0x31 ∷ 0x01 ∷ 0x02 ∷ 0x03 ∷ 0x04 ∷ []) }
    ensures jump_if_not_zero { IsWritten (instruction.JumpIfNotZero 0x01020304)
        (0x32 ∷ 0x01 ∷ 0x02 ∷ 0x03 ∷ 0x04 ∷ []) }
    ensures case_of_a_label { IsWritten (instruction.Case (negsuc 1) 0x01020304)
        (0x33 ∷ 0xff ∷ 0xff ∷ 0xff ∷ 0xff ∷ 0xff ∷ 0xff ∷ 0xff ∷ 0xfe ∷ 0x01 ∷ 0x02 ∷ 0x03 ∷ 0x04
        ∷ []) }
    ensures abort { IsWritten instruction.Abort (0x51 ∷ []) }
    ensures add_abort_method { IsWritten (instruction.AddAbortMethod (record { 0 = 0x0102 }))
        (0x52 ∷ 0x01 ∷ 0x02 ∷ []) }
{}

/// The records of attributes. Numbers of strings are text, label and help in this order.
pub fn record_bytes()
    ensures text { IsWritten (instruction.Text (record { 0 = 0x0102 }))
        (0x40 ∷ 0x01 ∷ 0x02 ∷ []) }
    ensures number { IsWritten instruction.Number (0x41 ∷ []) }
    ensures item_of_a_menu { IsWritten
        (instruction.Item (items.Menu (record { 0 = 0x0102 })) 5)
        (0x42 ∷ 0x03 ∷ 0x01 ∷ 0x02 ∷ 0x00 ∷ 0x05 ∷ []) }
    ensures data_constant { IsWritten (instruction.DataConst 0xfe) (0x43 ∷ 0xfe ∷ []) }
    ensures data_variable { IsWritten
        (instruction.DataVar (record { 0 = 0x0102 }) 0x03040506 2)
        (0x44 ∷ 0x01 ∷ 0x02 ∷ 0x03 ∷ 0x04 ∷ 0x05 ∷ 0x06 ∷ 0x02 ∷ []) }
    ensures enumerator { IsWritten (instruction.Enumerator (pos 0x0102) (record { 0 = 0x0304 })
        (Some (record { 0 = 0x0506 })))
        (0x45 ∷ 0x00 ∷ 0x00 ∷ 0x00 ∷ 0x00 ∷ 0x00 ∷ 0x00 ∷ 0x01 ∷ 0x02 ∷ 0x03 ∷ 0x04 ∷ 0x05 ∷ 0x06
        ∷ []) }
    ensures enumerator_without_help { IsWritten
        (instruction.Enumerator (pos 1) (record { 0 = 2 }) None)
        (0x45 ∷ 0x00 ∷ 0x00 ∷ 0x00 ∷ 0x00 ∷ 0x00 ∷ 0x00 ∷ 0x00 ∷ 0x01 ∷ 0x00 ∷ 0x02 ∷ 0xff ∷ 0xff
        ∷ []) }
    ensures response { IsWritten (instruction.Response 0x01020304 6 (record { 0 = 0x0506 }))
        (0x46 ∷ 0x01 ∷ 0x02 ∷ 0x03 ∷ 0x04 ∷ 0x06 ∷ 0x05 ∷ 0x06 ∷ []) }
    ensures member { IsWritten (instruction.Member (record { 0 = 0x0102 })
        (items.Method (record { 0 = 0x0304 })) (Some (record { 0 = 0x0506 }))
        (Some (record { 0 = 0x0708 })))
        (0x47 ∷ 0x01 ∷ 0x02 ∷ 0x05 ∷ 0x03 ∷ 0x04 ∷ 0x05 ∷ 0x06 ∷ 0x07 ∷ 0x08 ∷ []) }
    ensures member_with_a_help { IsWritten (instruction.Member (record { 0 = 1 })
        (items.Variable (record { 0 = 2 })) None (Some (record { 0 = 3 })))
        (0x47 ∷ 0x00 ∷ 0x01 ∷ 0x01 ∷ 0x00 ∷ 0x02 ∷ 0xff ∷ 0xff ∷ 0x00 ∷ 0x03 ∷ []) }
    ensures element { IsWritten (instruction.Element 0x01020304 (record { 0 = 0x0506 })
        (Some (record { 0 = 0x0708 })) (Some (record { 0 = 0x090a })))
        (0x48 ∷ 0x01 ∷ 0x02 ∷ 0x03 ∷ 0x04 ∷ 0x05 ∷ 0x06 ∷ 0x07 ∷ 0x08 ∷ 0x09 ∷ 0x0a ∷ []) }
    ensures element_with_a_label { IsWritten (instruction.Element 1 (record { 0 = 2 })
        (Some (record { 0 = 3 })) None)
        (0x48 ∷ 0x00 ∷ 0x00 ∷ 0x00 ∷ 0x01 ∷ 0x00 ∷ 0x02 ∷ 0x00 ∷ 0x03 ∷ 0xff ∷ 0xff ∷ []) }
{}

/// The requests.
pub fn request_bytes()
    ensures put_message { IsWritten (asks kind.PutMessage 0x0102 0)
        (0x50 ∷ 0x01 ∷ 0x01 ∷ 0x02 ∷ 0x00 ∷ 0x00 ∷ []) }
    ensures acknowledge { IsWritten (asks kind.Acknowledge 0x0102 0)
        (0x50 ∷ 0x02 ∷ 0x01 ∷ 0x02 ∷ 0x00 ∷ 0x00 ∷ []) }
    ensures delay { IsWritten (asks kind.Delay 0x0102 0)
        (0x50 ∷ 0x03 ∷ 0x01 ∷ 0x02 ∷ 0x00 ∷ 0x00 ∷ []) }
    ensures get_dev_var_value { IsWritten (asks kind.GetDevVarValue 0x0102 0x0304)
        (0x50 ∷ 0x04 ∷ 0x01 ∷ 0x02 ∷ 0x03 ∷ 0x04 ∷ []) }
    ensures select_from_list { IsWritten (asks kind.SelectFromList 0x0102 0x0304)
        (0x50 ∷ 0x05 ∷ 0x01 ∷ 0x02 ∷ 0x03 ∷ 0x04 ∷ []) }
    ensures send_command { IsWritten (asks kind.SendCommand 0 0)
        (0x50 ∷ 0x06 ∷ 0x00 ∷ 0x00 ∷ 0x00 ∷ 0x00 ∷ []) }
    ensures send_command_trans { IsWritten (asks kind.SendCommandTrans 0 0)
        (0x50 ∷ 0x07 ∷ 0x00 ∷ 0x00 ∷ 0x00 ∷ 0x00 ∷ []) }
    ensures save_values { IsWritten (asks kind.SaveValues 0 0)
        (0x50 ∷ 0x08 ∷ 0x00 ∷ 0x00 ∷ 0x00 ∷ 0x00 ∷ []) }
{}
