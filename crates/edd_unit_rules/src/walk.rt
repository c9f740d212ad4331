//! A walk over the instructions of a unit, as long as nothing is wrong.

ghost use Rattle.std.specs.Prelude.{◌≡◌, ◌+◌, ◌-◌, ◌<◌, ◌≤◌, IsTrue, length, option_map, slice_set, true, false, vec_len};
ghost use Rattle.edd_instructions.specs.References.{names_exist};
ghost use Rattle.edd_instructions.specs.Units.{is_allowed, takes, leaves};
ghost use Rattle.edd_unit_rules.specs.declared.marks.Mark.TheVariants.{Stands};
ghost use Rattle.edd_unit_rules.specs.Marks.{agrees_with, brought, mark_at, note_at};
ghost use Rattle.edd_unit_rules.specs.Standing.{fits, jumps_inside, may_lead};
ghost use Rattle.edd_unit_rules.specs.Walks.{jump_agrees, jump_noted};

use crate::marks::{Mark, note};
use edd_image::Version;
use edd_instructions::{Context, Instruction, Sort};

/// How far a walk has come that has seen nothing wrong.
#[derive(Drop)]
pub struct Walk {
    /// What is known of each place.
    pub marks: Vec<Mark>,
    /// Whether the last instruction goes on to the one after it.
    pub goes_on: bool,
    /// How many operands it brings there, and 0 where it doesn't go on.
    pub depth: u8,
}

/// Whether a jump from a place leads inside the unit, and in an attribute forward.
#[inline(always)]
pub fn may_lead(sort: Sort, size: usize, place: usize, target: usize) -> bool
    ensures { result ≡ may_lead sort size place target }
{
    let is_forward = match sort {
        Sort::Method => true,
        Sort::Attribute => place < target,
    };
    is_forward && target < size
}

// Whether an instruction at a place where `depth` operands are may jump to a target with `rest` of
// them. It is a function of its own, so that fewer values live in the walk.
#[inline(never)]
fn may_jump(marks: &[Mark], sort: Sort, place: usize, depth: u8, rest: u8, target: u32) -> bool
    requires { place < length marks.now }
    ensures leads { IsTrue result → may_lead sort (length marks.now) place target ≡ true }
    ensures agrees { IsTrue result
        → agrees_with (mark_at (slice_set marks.now place (Stands depth)) target) rest ≡ true }
{
    let target = target as usize;
    if !may_lead(sort, marks.len(), place, target) {
        return false;
    }
    if target == place {
        return depth == rest;
    }
    match marks[target] {
        Mark::Unknown => true,
        Mark::Awaited(known) | Mark::Stands(known) => known == rest,
    }
}

impl Walk {
    // Takes on an instruction that takes nothing and doesn't go on.
    #[inline(always)]
    fn stop(&mut self, place: usize, depth: u8, fits: bool) -> bool
        requires { place < vec_len self.old.marks }
        ensures kept { result ≡ false → self.new.marks.items ≡ self.old.marks.items }
        ensures fits { IsTrue result → fits ≡ true }
        ensures marks { IsTrue result → self.new.marks.items ≡ slice_set self.old.marks.items place
            (Stands depth) }
        ensures goes_on { IsTrue result → self.new.goes_on ≡ false }
        ensures depth { IsTrue result → self.new.depth ≡ 0 }
        ensures len { vec_len self.new.marks ≡ vec_len self.old.marks }
    {
        if !fits {
            return false;
        }
        self.marks[place] = Mark::Stands(depth);
        self.goes_on = false;
        self.depth = 0;
        true
    }

    // Takes on an instruction that goes on, where it has its operands, and room for what it leaves.
    #[inline(always)]
    fn go_on(&mut self, place: usize, depth: u8, fits: bool, takes: u8, leaves: u8) -> bool
        requires place { place < vec_len self.old.marks }
        requires depth { depth ≤ 128 }
        requires leaves { leaves ≤ 2 }
        ensures kept { result ≡ false → self.new.marks.items ≡ self.old.marks.items }
        ensures fits { IsTrue result → fits ≡ true }
        ensures enough { IsTrue result → takes ≤ depth }
        ensures room { IsTrue result → depth - takes + leaves ≤ 128 }
        ensures marks { IsTrue result → self.new.marks.items ≡ slice_set self.old.marks.items place
            (Stands depth) }
        ensures goes_on { IsTrue result → self.new.goes_on ≡ true }
        ensures depth { IsTrue result → self.new.depth ≡ depth - takes + leaves }
        ensures len { vec_len self.new.marks ≡ vec_len self.old.marks }
    {
        if !fits || depth < takes {
            return false;
        }
        let brought = depth - takes + leaves;
        if leaves > takes && brought > 128 {
            return false;
        }
        self.marks[place] = Mark::Stands(depth);
        self.goes_on = true;
        self.depth = brought;
        true
    }

    // Notes a jump to a target inside, with so many operands. That is always done.
    #[inline(always)]
    fn jump(&mut self, rest: u8, target: u32) -> bool
        requires { target < vec_len self.old.marks }
        ensures jumps { result ≡ true }
        ensures marks { self.new.marks.items ≡ note_at self.old.marks.items target rest }
        ensures goes_on { self.new.goes_on ≡ self.old.goes_on }
        ensures depth { self.new.depth ≡ self.old.depth }
        ensures len { vec_len self.new.marks ≡ vec_len self.old.marks }
    {
        let _ = note(&mut self.marks, target as usize, rest);
        true
    }

    // Takes on a jump to a target that takes an operand to decide, and brings the others there. It
    // goes on with so many more.
    #[inline(always)]
    fn branch(&mut self, sort: Sort, place: usize, depth: u8, leaves: u8, target: u32) -> bool
        requires place { place < vec_len self.old.marks }
        requires depth { depth ≤ 128 }
        requires leaves { leaves ≤ 1 }
        ensures kept { result ≡ false → self.new.marks.items ≡ self.old.marks.items }
        ensures leads { IsTrue result → may_lead sort (vec_len self.old.marks) place target ≡ true }
        ensures enough { IsTrue result → 1 ≤ depth }
        ensures agrees { IsTrue result → agrees_with
            (mark_at (slice_set self.old.marks.items place (Stands depth)) target) (depth - 1)
            ≡ true }
        ensures marks { IsTrue result → self.new.marks.items
            ≡ note_at (slice_set self.old.marks.items place (Stands depth)) target (depth - 1) }
        ensures goes_on { IsTrue result → self.new.goes_on ≡ true }
        ensures depth { IsTrue result → self.new.depth ≡ depth - 1 + leaves }
        ensures len { vec_len self.new.marks ≡ vec_len self.old.marks }
    {
        let rest = depth.saturating_sub(1);
        may_jump(&self.marks, sort, place, depth, rest, target)
            && self.go_on(place, depth, true, 1, leaves)
            && self.jump(rest, target)
    }

    /// Takes on the instruction at a place where so many operands are, if it may be there, has its
    /// operands, and leads nowhere with another number of them. Else it leaves the marks as they
    /// were.
    #[inline(always)]
    pub fn take_on(
        &mut self,
        context: Context,
        size: usize,
        place: usize,
        depth: u8,
        instruction: Instruction,
    ) -> bool
        requires size { vec_len self.old.marks ≡ size }
        requires place { place < size }
        requires depth { depth ≤ 128 }
        ensures kept { result ≡ false → self.new.marks.items ≡ self.old.marks.items }
        ensures allowed { IsTrue result → is_allowed context.version context.sort instruction
            ≡ true }
        ensures names { IsTrue result → names_exist context instruction ≡ true }
        ensures leads { IsTrue result → jumps_inside context.sort size place instruction ≡ true }
        ensures fits { IsTrue result → fits depth instruction ≡ true }
        ensures agrees { IsTrue result
            → jump_agrees instruction (slice_set self.old.marks.items place (Stands depth))
            (depth - takes instruction) ≡ true }
        ensures brought { IsTrue result → brought self.new.goes_on self.new.depth
            ≡ option_map (λ n. depth - takes instruction + n) (leaves instruction) }
        ensures room { IsTrue result → self.new.depth ≤ 128 }
        ensures nothing { IsTrue result → self.new.goes_on ≡ false → self.new.depth ≡ 0 }
        ensures marks { IsTrue result → self.new.marks.items
            ≡ jump_noted context.sort size place instruction
            (slice_set self.old.marks.items place (Stands depth)) (depth - takes instruction) }
        ensures len { vec_len self.new.marks ≡ vec_len self.old.marks }
    {
        use Instruction::{
            AddAbortMethod, Case, Compare, Complement, DataConst, DataVar, Duplicate, Element, End,
            Enumerator, GetLocal, Item, Jump, JumpIfNotZero, JumpIfZero, Member, Negate, Not,
            Number, Operate, Pop, Push, ReadElement, Response, SetLocal, Store, Text, Variable,
        };
        let sort = context.sort;
        let is_method = matches!(sort, Sort::Method);
        let is_second = matches!(context.version, Version::Two);
        let counts = context.counts;
        match instruction {
            End => self.stop(place, depth, true),
            Push(_) => self.go_on(place, depth, true, 0, 1),
            Variable(v) => self.go_on(place, depth, counts.has_variable(v), 0, 1),
            Store(v) => self.go_on(place, depth, is_method && counts.has_variable(v), 1, 1),
            GetLocal(slot) => self.go_on(place, depth, is_method && slot < context.slots, 0, 1),
            SetLocal(slot) => self.go_on(place, depth, is_method && slot < context.slots, 1, 1),
            Pop => self.go_on(place, depth, true, 1, 0),
            Duplicate => self.go_on(place, depth, true, 1, 2),
            ReadElement(a) => self.go_on(place, depth, is_second && counts.has_array(a), 1, 1),
            Operate(_) | Compare(_) => self.go_on(place, depth, true, 2, 1),
            Negate | Not | Complement => self.go_on(place, depth, true, 1, 1),
            Jump(to) => {
                may_jump(&self.marks, sort, place, depth, depth, to)
                    && self.stop(place, depth, true)
                    && self.jump(depth, to)
            }
            JumpIfZero(to) | JumpIfNotZero(to) => self.branch(sort, place, depth, 0, to),
            Case { target, .. } => self.branch(sort, place, depth, 1, target),
            Text(s) => self.go_on(place, depth, !is_method && counts.has_string(s), 0, 0),
            Number => self.go_on(place, depth, !is_method, 1, 0),
            DataConst(_) => self.go_on(place, depth, !is_method, 0, 0),
            Item { item, .. } => {
                let fits = !is_method && counts.has_item(item);
                self.go_on(place, depth, fits, 0, 0)
            }
            DataVar { .. } | Enumerator { .. } | Response { .. } | Member { .. } => {
                let fits = !is_method && context.has_names(instruction);
                self.go_on(place, depth, fits, 0, 0)
            }
            Element { .. } => {
                let fits = is_second && !is_method && context.has_names(instruction);
                self.go_on(place, depth, fits, 0, 0)
            }
            Instruction::Ask(_) => {
                let fits = is_method && context.has_names(instruction);
                self.go_on(place, depth, fits, instruction.takes(), 1)
            }
            Instruction::Abort => self.stop(place, depth, is_method),
            AddAbortMethod(method) => {
                let fits = is_second && is_method && counts.has_method(method);
                self.go_on(place, depth, fits, 0, 1)
            }
        }
    }
}
