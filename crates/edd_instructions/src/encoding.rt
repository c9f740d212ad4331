//! The bytes of an instruction.

ghost use Rattle.std.specs.Prelude.{◌≡◌, ℕ, ◌+◌, ◌≤◌, [], ◌∷◌, ◌++◌, length};
ghost use Rattle.arrayvec.specs.ArrayVec.{array_vec_len};
ghost use Rattle.edd_image.specs.Layout.{u16, u32};
ghost use Rattle.edd_instructions.specs.Spelling.{i64, head_length, jump_to, spelling, operator_code, comparison_code, ask_bytes, item_bytes, optional_number, optional_bytes};

use crate::instruction::{Ask, Instruction, Jump};
use arrayvec::ArrayVec;
use edd_syntax::numbers::{ItemNo, StrNo, VarNo};
use edd_syntax::operators::{Comparison, Operator};

/// The bytes of an instruction. No instruction has more than a CASE and an enumerator, which have
/// 13.
pub type Encoding = ArrayVec<u8, 13>;

fn put(bytes: &mut Encoding, more: &[u8])
    requires { array_vec_len bytes.old + length more.now ≤ 13 }
    ensures items { bytes.new.items ≡ bytes.old.items ++ more.now }
    ensures len { array_vec_len bytes.new ≡ array_vec_len bytes.old + length more.now }
{
    if bytes.try_extend_from_slice(more).is_err() {
        unreachable!();
    }
}

// An instruction without operands.
fn alone(number: u8) -> Encoding
    ensures items { result.items ≡ number ∷ [] }
    ensures len { array_vec_len result ≡ 1 }
{
    let mut bytes = ArrayVec::new();
    bytes.push(number);
    bytes
}

fn with_u16(number: u8, operand: u16) -> Encoding
    ensures items { result.items ≡ number ∷ u16 operand }
    ensures len { array_vec_len result ≡ 3 }
{
    let mut bytes = alone(number);
    put(&mut bytes, &operand.to_be_bytes());
    bytes
}

fn with_u32(number: u8, operand: u32) -> Encoding
    ensures items { result.items ≡ number ∷ u32 operand }
    ensures len { array_vec_len result ≡ 5 }
{
    let mut bytes = alone(number);
    put(&mut bytes, &operand.to_be_bytes());
    bytes
}

fn with_i64(number: u8, operand: i64) -> Encoding
    ensures items { result.items ≡ number ∷ i64 operand }
    ensures len { array_vec_len result ≡ 9 }
{
    let mut bytes = alone(number);
    put(&mut bytes, &operand.to_be_bytes());
    bytes
}

fn operator_number(op: Operator) -> u8
    ensures { result ≡ operator_code op }
{
    match op {
        Operator::Add => 0x10,
        Operator::Subtract => 0x11,
        Operator::Multiply => 0x12,
        Operator::Divide => 0x13,
        Operator::Remainder => 0x14,
        Operator::ShiftLeft => 0x15,
        Operator::ShiftRight => 0x16,
        Operator::And => 0x17,
        Operator::Or => 0x18,
        Operator::Xor => 0x19,
    }
}

fn comparison_number(by: Comparison) -> u8
    ensures { result ≡ comparison_code by }
{
    match by {
        Comparison::Equal => 0x1a,
        Comparison::NotEqual => 0x1b,
        Comparison::Less => 0x1c,
        Comparison::LessOrEqual => 0x1d,
        Comparison::Greater => 0x1e,
        Comparison::GreaterOrEqual => 0x1f,
    }
}

// A string that may be missing, which FFFF says.
fn number_or_none(string: Option<StrNo>) -> u16
    ensures { result ≡ optional_number string }
{
    match string {
        None => 0xffff,
        Some(string) => string.0,
    }
}

fn put_item(bytes: &mut Encoding, item: ItemNo)
    requires { array_vec_len bytes.old + 3 ≤ 13 }
    ensures items { bytes.new.items ≡ bytes.old.items ++ item_bytes item }
    ensures len { array_vec_len bytes.new ≡ array_vec_len bytes.old + 3 }
{
    bytes.push(item.kind().number());
    put(bytes, &item.index().to_be_bytes());
}

fn put_optional(bytes: &mut Encoding, string: Option<StrNo>)
    requires { array_vec_len bytes.old + 2 ≤ 13 }
    ensures items { bytes.new.items ≡ bytes.old.items ++ optional_bytes string }
    ensures len { array_vec_len bytes.new ≡ array_vec_len bytes.old + 2 }
{
    put(bytes, &number_or_none(string).to_be_bytes());
}

fn entry(item: ItemNo, quals: u16) -> Encoding
    ensures { result.items ≡ spelling (Instruction.Item item quals) }
{
    let mut bytes = alone(0x42);
    put_item(&mut bytes, item);
    put(&mut bytes, &quals.to_be_bytes());
    bytes
}

fn data_const(octet: u8) -> Encoding
    ensures { result.items ≡ spelling (Instruction.DataConst octet) }
{
    let mut bytes = alone(0x43);
    bytes.push(octet);
    bytes
}

fn data_var(var: VarNo, mask: u32, quals: u8) -> Encoding
    ensures { result.items ≡ spelling (Instruction.DataVar var mask quals) }
{
    let mut bytes = with_u16(0x44, var.0);
    put(&mut bytes, &mask.to_be_bytes());
    bytes.push(quals);
    bytes
}

fn enumerator(value: i64, text: StrNo, help: Option<StrNo>) -> Encoding
    ensures { result.items ≡ spelling (Instruction.Enumerator value text help) }
{
    let mut bytes = with_i64(0x45, value);
    put(&mut bytes, &text.0.to_be_bytes());
    put_optional(&mut bytes, help);
    bytes
}

fn response(number: u32, class: u8, text: StrNo) -> Encoding
    ensures { result.items ≡ spelling (Instruction.Response number class text) }
{
    let mut bytes = with_u32(0x46, number);
    bytes.push(class);
    put(&mut bytes, &text.0.to_be_bytes());
    bytes
}

fn member(name: StrNo, item: ItemNo, label: Option<StrNo>, help: Option<StrNo>) -> Encoding
    ensures { result.items ≡ spelling (Instruction.Member name item label help) }
{
    let mut bytes = with_u16(0x47, name.0);
    put_item(&mut bytes, item);
    put_optional(&mut bytes, label);
    put_optional(&mut bytes, help);
    bytes
}

fn element(number: u32, var: VarNo, label: Option<StrNo>, help: Option<StrNo>) -> Encoding
    ensures { result.items ≡ spelling (Instruction.Element number var label help) }
{
    let mut bytes = with_u32(0x48, number);
    put(&mut bytes, &var.0.to_be_bytes());
    put_optional(&mut bytes, label);
    put_optional(&mut bytes, help);
    bytes
}

/// The bytes of a jump before its target, which are four more.
pub fn head(jump: Jump) -> Encoding
    ensures head { (target : ℕ) → result.items ++ u32 target ≡ spelling (jump_to jump target) }
    ensures len { array_vec_len result ≡ head_length jump }
{
    match jump {
        Jump::Always => alone(0x30),
        Jump::IfZero => alone(0x31),
        Jump::IfNotZero => alone(0x32),
        Jump::IfLabel(label) => with_i64(0x33, label),
    }
}

fn jump_to(jump: Jump, target: u32) -> Encoding
    ensures { result.items ≡ spelling (jump_to jump target) }
{
    let mut bytes = head(jump);
    put(&mut bytes, &target.to_be_bytes());
    bytes
}

fn ask(request: Ask) -> Encoding
    ensures { result.items ≡ 0x50 ∷ ask_bytes request }
{
    let mut bytes = alone(0x50);
    bytes.push(request.kind.number());
    put(&mut bytes, &request.first.to_be_bytes());
    put(&mut bytes, &request.second.to_be_bytes());
    bytes
}

/// The bytes of an instruction: its code, and its operands with the highest byte first.
pub fn encode(instruction: Instruction) -> Encoding
    ensures { result.items ≡ spelling instruction }
{
    match instruction {
        Instruction::End => alone(0x00),
        Instruction::Push(number) => with_u32(0x01, number),
        Instruction::Variable(variable) => with_u16(0x02, variable.0),
        Instruction::Store(variable) => with_u16(0x03, variable.0),
        Instruction::GetLocal(slot) => with_u16(0x04, slot),
        Instruction::SetLocal(slot) => with_u16(0x05, slot),
        Instruction::Pop => alone(0x06),
        Instruction::Duplicate => alone(0x07),
        Instruction::ReadElement(array) => with_u16(0x08, array.0),
        Instruction::Operate(op) => alone(operator_number(op)),
        Instruction::Compare(by) => alone(comparison_number(by)),
        Instruction::Negate => alone(0x20),
        Instruction::Not => alone(0x21),
        Instruction::Complement => alone(0x22),
        Instruction::Jump(to) => jump_to(Jump::Always, to),
        Instruction::JumpIfZero(to) => jump_to(Jump::IfZero, to),
        Instruction::JumpIfNotZero(to) => jump_to(Jump::IfNotZero, to),
        Instruction::Case { label, target } => jump_to(Jump::IfLabel(label), target),
        Instruction::Text(text) => with_u16(0x40, text.0),
        Instruction::Number => alone(0x41),
        Instruction::Item { item, quals } => entry(item, quals),
        Instruction::DataConst(octet) => data_const(octet),
        Instruction::DataVar { var, mask, quals } => data_var(var, mask, quals),
        Instruction::Enumerator { value, text, help } => enumerator(value, text, help),
        Instruction::Response {
            number,
            class,
            text,
        } => response(number, class, text),
        Instruction::Member {
            name,
            item,
            label,
            help,
        } => member(name, item, label, help),
        Instruction::Element {
            number,
            var,
            label,
            help,
        } => element(number, var, label, help),
        Instruction::Ask(request) => ask(request),
        Instruction::Abort => alone(0x51),
        Instruction::AddAbortMethod(method) => with_u16(0x52, method.0),
    }
}
