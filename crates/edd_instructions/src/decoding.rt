//! Reading an instruction from the bytes of a unit.

ghost use Rattle.std.specs.Prelude.{◌≡◌, ◌-◌, ◌<◌, ◌≤◌, ◌∷◌, drop, length, ◌==◌, IfSome, option_map, nat_lt, if◌then◌else◌, None, Some};
ghost use Rattle.std.specs.Int.{w16, w32, w64};
ghost use Rattle.edd_image.specs.Front.{byte_from, number_from};
ghost use Rattle.edd_instructions.specs.Decoding.{signed_from, basic_from, jump_from, item_from, optional_string, entry_from, data_from, enumerator_from, response_from, member_from, element_from, record_from, unused_are_zero, ask_of, ask_from, abort_method_from, instruction_from, instruction_at};

use crate::instruction::{Ask, Instruction};
use edd_syntax::numbers::{ArrNo, ItemNo, Kind, MethNo, StrNo, VarNo};
use edd_syntax::operators::{Comparison, Operator, RequestKind};

#[inline(always)]
#[tactic(auto, unfolding(edd_image::specs::Front::byte_from))]
fn byte_from(bytes: &[u8]) -> Option<(u8, &[u8])>
    ensures value { option_map (λ x. (x.0, x.1.now)) result ≡ byte_from bytes.now }
    ensures left { IfSome result (λ x. length x.1.now ≤ length bytes.now) }
{
    match bytes {
        [] => None,
        [byte, rest @ ..] => Some((*byte, rest)),
    }
}

#[inline(always)]
#[tactic(auto, unfolding(edd_image::specs::Front::number_from))]
fn u16_from(bytes: &[u8]) -> Option<(u16, &[u8])>
    ensures value { option_map (λ x. (x.0, x.1.now)) result ≡ number_from w16 bytes.now }
    ensures left { IfSome result (λ x. length x.1.now ≤ length bytes.now) }
{
    if bytes.len() < 2 {
        return None;
    }
    let (front, rest) = bytes.split_at(2);
    let number = u16::from_be_bytes([front[0], front[1]]);
    Some((number, rest))
}

#[inline(always)]
#[tactic(auto, unfolding(edd_image::specs::Front::number_from))]
fn u32_from(bytes: &[u8]) -> Option<(u32, &[u8])>
    ensures value { option_map (λ x. (x.0, x.1.now)) result ≡ number_from w32 bytes.now }
    ensures left { IfSome result (λ x. length x.1.now ≤ length bytes.now) }
{
    if bytes.len() < 4 {
        return None;
    }
    let (front, rest) = bytes.split_at(4);
    let number = u32::from_be_bytes([front[0], front[1], front[2], front[3]]);
    Some((number, rest))
}

#[inline(always)]
#[tactic(auto, unfolding(crate::specs::Decoding::signed_from))]
fn i64_from(bytes: &[u8]) -> Option<(i64, &[u8])>
    ensures value { option_map (λ x. (x.0, x.1.now)) result ≡ signed_from w64 bytes.now }
    ensures left { IfSome result (λ x. length x.1.now ≤ length bytes.now) }
{
    if bytes.len() < 8 {
        return None;
    }
    let (front, rest) = bytes.split_at(8);
    let number = i64::from_be_bytes([
        front[0], front[1], front[2], front[3], front[4], front[5], front[6], front[7],
    ]);
    Some((number, rest))
}

#[inline(always)]
fn optional_string(number: u16) -> Option<StrNo>
    ensures { result ≡ optional_string number }
{
    if number == 0xffff {
        None
    } else {
        Some(StrNo(number))
    }
}

#[inline(always)]
#[tactic(auto, unfolding(crate::specs::Decoding::item_from))]
fn item_from(bytes: &[u8]) -> Option<(ItemNo, &[u8])>
    ensures value { option_map (λ x. (x.0, x.1.now)) result ≡ item_from bytes.now }
    ensures left { IfSome result (λ x. length x.1.now ≤ length bytes.now) }
{
    let (kind, rest) = byte_from(bytes)?;
    let (number, rest) = u16_from(rest)?;
    if kind == Kind::Array.number() {
        return None;
    }
    let item = ItemNo::from_numbers(kind, number)?;
    Some((item, rest))
}

#[inline(always)]
#[tactic(auto, unfolding(crate::specs::Decoding::basic_from))]
fn push_from(bytes: &[u8]) -> Option<(Instruction, &[u8])>
    ensures value { option_map (λ x. (x.0, x.1.now)) result ≡ basic_from 0x01 bytes.now }
    ensures left { IfSome result (λ x. length x.1.now ≤ length bytes.now) }
{
    let (number, rest) = u32_from(bytes)?;
    Some((Instruction::Push(number), rest))
}

#[inline(always)]
#[tactic(auto, unfolding(crate::specs::Decoding::basic_from))]
fn variable_from(bytes: &[u8]) -> Option<(Instruction, &[u8])>
    ensures value { option_map (λ x. (x.0, x.1.now)) result ≡ basic_from 0x02 bytes.now }
    ensures left { IfSome result (λ x. length x.1.now ≤ length bytes.now) }
{
    let (number, rest) = u16_from(bytes)?;
    Some((Instruction::Variable(VarNo(number)), rest))
}

#[inline(always)]
#[tactic(auto, unfolding(crate::specs::Decoding::basic_from))]
fn store_from(bytes: &[u8]) -> Option<(Instruction, &[u8])>
    ensures value { option_map (λ x. (x.0, x.1.now)) result ≡ basic_from 0x03 bytes.now }
    ensures left { IfSome result (λ x. length x.1.now ≤ length bytes.now) }
{
    let (number, rest) = u16_from(bytes)?;
    Some((Instruction::Store(VarNo(number)), rest))
}

#[inline(always)]
#[tactic(auto, unfolding(crate::specs::Decoding::basic_from))]
fn get_local_from(bytes: &[u8]) -> Option<(Instruction, &[u8])>
    ensures value { option_map (λ x. (x.0, x.1.now)) result ≡ basic_from 0x04 bytes.now }
    ensures left { IfSome result (λ x. length x.1.now ≤ length bytes.now) }
{
    let (number, rest) = u16_from(bytes)?;
    Some((Instruction::GetLocal(number), rest))
}

#[inline(always)]
#[tactic(auto, unfolding(crate::specs::Decoding::basic_from))]
fn set_local_from(bytes: &[u8]) -> Option<(Instruction, &[u8])>
    ensures value { option_map (λ x. (x.0, x.1.now)) result ≡ basic_from 0x05 bytes.now }
    ensures left { IfSome result (λ x. length x.1.now ≤ length bytes.now) }
{
    let (number, rest) = u16_from(bytes)?;
    Some((Instruction::SetLocal(number), rest))
}

#[inline(always)]
#[tactic(auto, unfolding(crate::specs::Decoding::basic_from))]
fn read_element_from(bytes: &[u8]) -> Option<(Instruction, &[u8])>
    ensures value { option_map (λ x. (x.0, x.1.now)) result ≡ basic_from 0x08 bytes.now }
    ensures left { IfSome result (λ x. length x.1.now ≤ length bytes.now) }
{
    let (number, rest) = u16_from(bytes)?;
    Some((Instruction::ReadElement(ArrNo(number)), rest))
}

#[inline(always)]
#[tactic(auto, unfolding(crate::specs::Decoding::jump_from))]
fn jump_from(bytes: &[u8]) -> Option<(Instruction, &[u8])>
    ensures value { option_map (λ x. (x.0, x.1.now)) result ≡ jump_from 0x30 bytes.now }
    ensures left { IfSome result (λ x. length x.1.now ≤ length bytes.now) }
{
    let (target, rest) = u32_from(bytes)?;
    Some((Instruction::Jump(target), rest))
}

#[inline(always)]
#[tactic(auto, unfolding(crate::specs::Decoding::jump_from))]
fn jump_if_zero_from(bytes: &[u8]) -> Option<(Instruction, &[u8])>
    ensures value { option_map (λ x. (x.0, x.1.now)) result ≡ jump_from 0x31 bytes.now }
    ensures left { IfSome result (λ x. length x.1.now ≤ length bytes.now) }
{
    let (target, rest) = u32_from(bytes)?;
    Some((Instruction::JumpIfZero(target), rest))
}

#[inline(always)]
#[tactic(auto, unfolding(crate::specs::Decoding::jump_from))]
fn jump_if_not_zero_from(bytes: &[u8]) -> Option<(Instruction, &[u8])>
    ensures value { option_map (λ x. (x.0, x.1.now)) result ≡ jump_from 0x32 bytes.now }
    ensures left { IfSome result (λ x. length x.1.now ≤ length bytes.now) }
{
    let (target, rest) = u32_from(bytes)?;
    Some((Instruction::JumpIfNotZero(target), rest))
}

#[inline(always)]
#[tactic(auto, unfolding(crate::specs::Decoding::jump_from))]
fn case_from(bytes: &[u8]) -> Option<(Instruction, &[u8])>
    ensures value { option_map (λ x. (x.0, x.1.now)) result ≡ jump_from 0x33 bytes.now }
    ensures left { IfSome result (λ x. length x.1.now ≤ length bytes.now) }
{
    let (label, rest) = i64_from(bytes)?;
    let (target, rest) = u32_from(rest)?;
    Some((Instruction::Case { label, target }, rest))
}

#[inline(always)]
#[tactic(auto, unfolding(crate::specs::Decoding::entry_from))]
fn entry_from(bytes: &[u8]) -> Option<(Instruction, &[u8])>
    ensures value { option_map (λ x. (x.0, x.1.now)) result ≡ entry_from bytes.now }
    ensures left { IfSome result (λ x. length x.1.now ≤ length bytes.now) }
{
    let (item, rest) = item_from(bytes)?;
    let (quals, rest) = u16_from(rest)?;
    if quals < 16 {
        Some((Instruction::Item { item, quals }, rest))
    } else {
        None
    }
}

#[inline(always)]
#[tactic(auto, unfolding(crate::specs::Decoding::data_from))]
fn data_from(bytes: &[u8]) -> Option<(Instruction, &[u8])>
    ensures value { option_map (λ x. (x.0, x.1.now)) result ≡ data_from bytes.now }
    ensures left { IfSome result (λ x. length x.1.now ≤ length bytes.now) }
{
    let (number, rest) = u16_from(bytes)?;
    let (mask, rest) = u32_from(rest)?;
    let (quals, rest) = byte_from(rest)?;
    if quals < 4 {
        let var = VarNo(number);
        Some((Instruction::DataVar { var, mask, quals }, rest))
    } else {
        None
    }
}

#[inline(always)]
#[tactic(auto, unfolding(crate::specs::Decoding::enumerator_from))]
fn enumerator_from(bytes: &[u8]) -> Option<(Instruction, &[u8])>
    ensures value { option_map (λ x. (x.0, x.1.now)) result ≡ enumerator_from bytes.now }
    ensures left { IfSome result (λ x. length x.1.now ≤ length bytes.now) }
{
    let (value, rest) = i64_from(bytes)?;
    let (text, rest) = u16_from(rest)?;
    let (help, rest) = u16_from(rest)?;
    let text = StrNo(text);
    let help = optional_string(help);
    Some((Instruction::Enumerator { value, text, help }, rest))
}

#[inline(always)]
#[tactic(auto, unfolding(crate::specs::Decoding::response_from))]
fn response_from(bytes: &[u8]) -> Option<(Instruction, &[u8])>
    ensures value { option_map (λ x. (x.0, x.1.now)) result ≡ response_from bytes.now }
    ensures left { IfSome result (λ x. length x.1.now ≤ length bytes.now) }
{
    let (number, rest) = u32_from(bytes)?;
    let (class, rest) = byte_from(rest)?;
    let (text, rest) = u16_from(rest)?;
    if class < 7 {
        let text = StrNo(text);
        Some((
            Instruction::Response {
                number,
                class,
                text,
            },
            rest,
        ))
    } else {
        None
    }
}

#[inline(always)]
#[tactic(auto, unfolding(crate::specs::Decoding::member_from))]
fn member_from(bytes: &[u8]) -> Option<(Instruction, &[u8])>
    ensures value { option_map (λ x. (x.0, x.1.now)) result ≡ member_from bytes.now }
    ensures left { IfSome result (λ x. length x.1.now ≤ length bytes.now) }
{
    let (name, rest) = u16_from(bytes)?;
    let (item, rest) = item_from(rest)?;
    let (label, rest) = u16_from(rest)?;
    let (help, rest) = u16_from(rest)?;
    let name = StrNo(name);
    let label = optional_string(label);
    let help = optional_string(help);
    Some((
        Instruction::Member {
            name,
            item,
            label,
            help,
        },
        rest,
    ))
}

#[inline(always)]
#[tactic(auto, unfolding(crate::specs::Decoding::element_from))]
fn element_from(bytes: &[u8]) -> Option<(Instruction, &[u8])>
    ensures value { option_map (λ x. (x.0, x.1.now)) result ≡ element_from bytes.now }
    ensures left { IfSome result (λ x. length x.1.now ≤ length bytes.now) }
{
    let (number, rest) = u32_from(bytes)?;
    let (var, rest) = u16_from(rest)?;
    let (label, rest) = u16_from(rest)?;
    let (help, rest) = u16_from(rest)?;
    let var = VarNo(var);
    let label = optional_string(label);
    let help = optional_string(help);
    Some((
        Instruction::Element {
            number,
            var,
            label,
            help,
        },
        rest,
    ))
}

#[inline(always)]
#[tactic(auto, unfolding(crate::specs::Decoding::record_from))]
fn text_from(bytes: &[u8]) -> Option<(Instruction, &[u8])>
    ensures value { option_map (λ x. (x.0, x.1.now)) result ≡ record_from 0x40 bytes.now }
    ensures left { IfSome result (λ x. length x.1.now ≤ length bytes.now) }
{
    let (text, rest) = u16_from(bytes)?;
    Some((Instruction::Text(StrNo(text)), rest))
}

#[inline(always)]
#[tactic(auto, unfolding(crate::specs::Decoding::record_from))]
fn data_const_from(bytes: &[u8]) -> Option<(Instruction, &[u8])>
    ensures value { option_map (λ x. (x.0, x.1.now)) result ≡ record_from 0x43 bytes.now }
    ensures left { IfSome result (λ x. length x.1.now ≤ length bytes.now) }
{
    let (constant, rest) = byte_from(bytes)?;
    Some((Instruction::DataConst(constant), rest))
}

// Of two operands, those that name nothing are 0.
#[tactic(auto, using(crate::proofs::Names::by_names))]
fn unused_are_zero(names: u8, first: u16, second: u16) -> bool
    ensures { result ≡ unused_are_zero names first second }
{
    match names {
        0 => first == 0 && second == 0,
        1 => second == 0,
        _ => true,
    }
}

#[tactic(auto, unfolding(crate::specs::Decoding::ask_of))]
fn ask_of(number: u8, first: u16, second: u16) -> Option<Ask>
    ensures { result ≡ ask_of number first second }
{
    let kind = RequestKind::from_number(number)?;
    if unused_are_zero(kind.names_taken(), first, second) {
        return Some(Ask {
            kind,
            first,
            second,
        });
    }
    None
}

// A function of its own, since otherwise no instruction would be decoded inline.
#[inline(never)]
#[tactic(auto, unfolding(crate::specs::Decoding::ask_from))]
fn ask_from(bytes: &[u8]) -> Option<(Instruction, &[u8])>
    ensures value { option_map (λ x. (x.0, x.1.now)) result ≡ ask_from bytes.now }
    ensures left { IfSome result (λ x. length x.1.now ≤ length bytes.now) }
{
    let (number, rest) = byte_from(bytes)?;
    let (first, rest) = u16_from(rest)?;
    let (second, rest) = u16_from(rest)?;
    let request = ask_of(number, first, second)?;
    Some((Instruction::Ask(request), rest))
}

// A function of its own, as for requests: with it, decoding would be too large to be inline.
#[inline(never)]
#[tactic(auto, unfolding(crate::specs::Decoding::abort_method_from))]
fn abort_method_from(bytes: &[u8]) -> Option<(Instruction, &[u8])>
    ensures value { option_map (λ x. (x.0, x.1.now)) result ≡ abort_method_from bytes.now }
    ensures left { IfSome result (λ x. length x.1.now ≤ length bytes.now) }
{
    let (number, rest) = u16_from(bytes)?;
    Some((Instruction::AddAbortMethod(MethNo(number)), rest))
}

// The longest instructions. They have a function of their own, as requests do.
#[inline(never)]
fn long_from(number: u8, bytes: &[u8]) -> Option<(Instruction, &[u8])>
    ensures value { option_map (λ x. (x.0, x.1.now)) result ≡
        (if nat_lt number 0x40 then None else
        if nat_lt number 0x50 then
        (if number == 0x44 then data_from bytes.now else
        if number == 0x45 then enumerator_from bytes.now else
        if number == 0x46 then response_from bytes.now else
        if number == 0x47 then member_from bytes.now else
        if number == 0x48 then element_from bytes.now else None) else None) }
    ensures left { IfSome result (λ x. length x.1.now ≤ length bytes.now) }
{
    match number {
        0x44 => data_from(bytes),
        0x45 => enumerator_from(bytes),
        0x46 => response_from(bytes),
        0x47 => member_from(bytes),
        0x48 => element_from(bytes),
        _ => None,
    }
}

// An instruction that was read and the place after it, which the bytes that are left say.
#[inline(always)]
fn placed(code: &[u8], found: Option<(Instruction, &[u8])>) -> Option<(Instruction, usize)>
    requires { IfSome found (λ x. length x.1.now ≤ length code.now) }
    ensures { result ≡ option_map (λ x. (x.0, length code.now - length x.1.now)) found.entry }
{
    let (instruction, rest) = found?;
    Some((instruction, code.len() - rest.len()))
}

// The instruction of a number whose operands begin at a place, and the place after them.
//
// Each arm takes the bytes of its operands by itself, so that an instruction of one byte costs no
// slice.
#[inline(always)]
#[tactic(auto, unfolding(crate::specs::Decoding::instruction_from, crate::specs::Decoding::basic_from, crate::specs::Decoding::operator_of, crate::specs::Decoding::comparison_of, crate::specs::Decoding::unary_of, crate::specs::Decoding::jump_from, crate::specs::Decoding::record_from))]
fn numbered(number: u8, code: &[u8], next: usize) -> Option<(Instruction, usize)>
    requires { next ≤ length code.now }
    ensures { result ≡ option_map (λ x. (x.0, length code.now - length x.1))
        (instruction_from (number ∷ drop next code.now)) }
{
    match number {
        0x00 => Some((Instruction::End, next)),
        0x01 => placed(code, push_from(&code[next..])),
        0x02 => placed(code, variable_from(&code[next..])),
        0x03 => placed(code, store_from(&code[next..])),
        0x04 => placed(code, get_local_from(&code[next..])),
        0x05 => placed(code, set_local_from(&code[next..])),
        0x06 => Some((Instruction::Pop, next)),
        0x07 => Some((Instruction::Duplicate, next)),
        0x08 => placed(code, read_element_from(&code[next..])),
        0x10 => Some((Instruction::Operate(Operator::Add), next)),
        0x11 => Some((Instruction::Operate(Operator::Subtract), next)),
        0x12 => Some((Instruction::Operate(Operator::Multiply), next)),
        0x13 => Some((Instruction::Operate(Operator::Divide), next)),
        0x14 => Some((Instruction::Operate(Operator::Remainder), next)),
        0x15 => Some((Instruction::Operate(Operator::ShiftLeft), next)),
        0x16 => Some((Instruction::Operate(Operator::ShiftRight), next)),
        0x17 => Some((Instruction::Operate(Operator::And), next)),
        0x18 => Some((Instruction::Operate(Operator::Or), next)),
        0x19 => Some((Instruction::Operate(Operator::Xor), next)),
        0x1a => Some((Instruction::Compare(Comparison::Equal), next)),
        0x1b => Some((Instruction::Compare(Comparison::NotEqual), next)),
        0x1c => Some((Instruction::Compare(Comparison::Less), next)),
        0x1d => Some((Instruction::Compare(Comparison::LessOrEqual), next)),
        0x1e => Some((Instruction::Compare(Comparison::Greater), next)),
        0x1f => Some((Instruction::Compare(Comparison::GreaterOrEqual), next)),
        0x20 => Some((Instruction::Negate, next)),
        0x21 => Some((Instruction::Not, next)),
        0x22 => Some((Instruction::Complement, next)),
        0x30 => placed(code, jump_from(&code[next..])),
        0x31 => placed(code, jump_if_zero_from(&code[next..])),
        0x32 => placed(code, jump_if_not_zero_from(&code[next..])),
        0x33 => placed(code, case_from(&code[next..])),
        0x40 => placed(code, text_from(&code[next..])),
        0x41 => Some((Instruction::Number, next)),
        0x42 => placed(code, entry_from(&code[next..])),
        0x43 => placed(code, data_const_from(&code[next..])),
        0x50 => placed(code, ask_from(&code[next..])),
        0x51 => Some((Instruction::Abort, next)),
        0x52 => placed(code, abort_method_from(&code[next..])),
        _ => placed(code, long_from(number, &code[next..])),
    }
}

/// The instruction at a place and the place after it, where there is a whole instruction.
#[inline(always)]
#[tactic(auto, unfolding(crate::specs::Decoding::instruction_at))]
pub fn decode(code: &[u8], place: usize) -> Option<(Instruction, usize)>
    requires { place ≤ length code.now }
    ensures value { result ≡ instruction_at code.now place }
    ensures inside { IfSome result (λ found. (place < found.1) × (found.1 ≤ length code.now)) }
{
    if place >= code.len() {
        return None;
    }
    numbered(code[place], code, place + 1)
}
