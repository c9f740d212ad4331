//! A walk over the instructions of a unit that goes on after a breach.

ghost use Rattle.std.specs.Prelude.{◌≡◌, ◌+◌, ◌-◌, ◌<◌, ◌≤◌, ◌&&◌, IfSome, IsTrue, is_some, option_map, nat_le, slice_set, true, false, vec_len, if◌then◌else◌, Some, None};
ghost use Rattle.std.specs.Option.{option_map_or};
ghost use Rattle.edd_instructions.specs.References.{names_exist};
ghost use Rattle.edd_instructions.specs.Units.{is_allowed, jump, leaves, takes};
ghost use Rattle.edd_unit_rules.specs.declared.marks.Mark.TheVariants.{Stands};
ghost use Rattle.edd_unit_rules.specs.Marks.{agrees_with, arrival, brought, depth_known, mark_at, note_at};
ghost use Rattle.edd_unit_rules.specs.Standing.{fits, jumps_inside, may_lead};
ghost use Rattle.edd_unit_rules.specs.Walks.{jump_agrees, jump_noted};

use crate::marks::{Mark, arrival, note};
use crate::walk::{Walk, may_lead};
use edd_instructions::{Context, Instruction, Sort, Way};

/// How far a walk has come, and what it has seen of the instructions before.
#[derive(Drop)]
pub struct Survey {
    /// What is known of each place.
    pub marks: Vec<Mark>,
    /// Whether the last instruction goes on to the one after it.
    pub goes_on: bool,
    /// How many operands it brings there, and 0 where it doesn't go on.
    pub depth: u8,
    /// Whether each jump leads inside the unit, and in an attribute forward.
    pub leads: bool,
    /// Whether the numbers of operands agree and fit, which is looked at only as long as all jumps
    /// lead inside.
    pub agrees: bool,
    /// Whether all that is named exists.
    pub names: bool,
    /// The first place where the numbers of operands don't agree or fit.
    pub misfit: Option<usize>,
    /// The first place where something is named that doesn't exist.
    pub unnamed: Option<usize>,
}

impl Survey {
    /// A walk that has seen nothing wrong so far.
    pub fn of(walk: Walk) -> Survey
        ensures { result ≡ record {
          marks = walk.marks;
          goes_on = walk.goes_on;
          depth = walk.depth;
          leads = true;
          agrees = true;
          names = true;
          misfit = None;
          unnamed = None;
        } }
    {
        Survey {
            marks: walk.marks,
            goes_on: walk.goes_on,
            depth: walk.depth,
            leads: true,
            agrees: true,
            names: true,
            misfit: None,
            unnamed: None,
        }
    }

    /// How many operands there are at a place.
    pub fn arrive(&mut self, place: usize) -> u8
        requires place { place < vec_len self.old.marks }
        requires room { self.old.depth ≤ 128 }
        requires nothing { self.old.goes_on ≡ false → self.old.depth ≡ 0 }
        requires fit { IfSome (depth_known (mark_at self.old.marks.items place))
            (λ known. known ≤ 128) }
        ensures depth { result ≤ 128 }
        ensures arrival { (if self.new.agrees then Some result else None)
            ≡ (if self.old.agrees then arrival (brought self.old.goes_on self.old.depth)
            (depth_known (mark_at self.old.marks.items place)) else None) }
        ensures others { self.new ≡ record self.old { agrees = self.new.agrees } }
    {
        match arrival(self.goes_on, self.depth, self.marks[place]) {
            Some(depth) => depth,
            None => {
                self.agrees = false;
                0
            }
        }
    }

    // Notes where an instruction jumps, with so many operands.
    fn jump(&mut self, sort: Sort, place: usize, rest: u8, way: Option<Way>)
        ensures leads { self.new.leads
            ≡ (option_map_or (λ w. may_lead sort (vec_len self.old.marks) place w.to) way true
            && self.old.leads) }
        ensures agrees { IsTrue self.new.leads
            → self.new.agrees ≡ (option_map_or (λ w. agrees_with (mark_at self.old.marks.items w.to)
            rest) way true && self.old.agrees) }
        ensures kept { IsTrue self.new.agrees → IsTrue self.old.agrees }
        ensures marks { self.new.marks.items
            ≡ option_map_or (λ w. if may_lead sort (vec_len self.old.marks) place w.to then note_at
            self.old.marks.items w.to rest else self.old.marks.items) way self.old.marks.items }
        ensures others { self.new
            ≡ record self.old {
              marks = self.new.marks;
              leads = self.new.leads;
              agrees = self.new.agrees;
            } }
        ensures len { vec_len self.new.marks ≡ vec_len self.old.marks }
    {
        let Some(way) = way else {
            return;
        };
        if !may_lead(sort, self.marks.len(), place, way.to) {
            self.leads = false;
        } else if !note(&mut self.marks, way.to, rest) {
            self.agrees = false;
        }
    }

    // Takes on what an instruction brings to the next: of `rest` operands and what it leaves there.
    fn bring(&mut self, rest: u8, way: Option<Way>)
        requires { rest ≤ 128 }
        ensures goes_on { self.new.goes_on ≡ is_some way }
        ensures nothing { self.new.goes_on ≡ false → self.new.depth ≡ 0 }
        ensures room { self.new.depth ≤ 128 }
        ensures agrees { self.new.agrees
            ≡ (option_map_or (λ w. nat_le (rest + w.leaves) 128) way true && self.old.agrees) }
        ensures brought { IsTrue self.new.agrees → brought self.new.goes_on self.new.depth
            ≡ option_map (λ w. rest + w.leaves) way }
        ensures others { self.new
            ≡ record self.old {
              goes_on = self.new.goes_on;
              depth = self.new.depth;
              agrees = self.new.agrees;
            } }
    {
        let Some(way) = way else {
            self.goes_on = false;
            self.depth = 0;
            return;
        };
        self.goes_on = true;
        let brought = u16::from(rest) + u16::from(way.leaves);
        if brought > 128 {
            self.agrees = false;
            self.depth = 0;
        } else {
            self.depth = brought as u8;
        }
    }

    // Keeps the place where a rule is first seen broken.
    fn keep_place(&mut self, place: usize)
        ensures { self.new
            ≡ record self.old { misfit = self.new.misfit; unnamed = self.new.unnamed } }
    {
        if !self.agrees && self.misfit.is_none() {
            self.misfit = Some(place);
        }
        if !self.names && self.unnamed.is_none() {
            self.unnamed = Some(place);
        }
    }

    /// Takes on the instruction at a place where so many operands are. False where it isn't
    /// allowed.
    pub fn take_on(
        &mut self,
        context: Context,
        place: usize,
        next: usize,
        depth: u8,
        instruction: Instruction,
    ) -> bool
        requires place { place < vec_len self.old.marks }
        requires depth { depth ≤ 128 }
        ensures allowed { result ≡ is_allowed context.version context.sort instruction }
        ensures names { IsTrue result
            → self.new.names ≡ (names_exist context instruction && self.old.names) }
        ensures leads { IsTrue result
            → self.new.leads ≡ (jumps_inside context.sort (vec_len self.old.marks) place instruction
            && self.old.leads) }
        ensures goes_on { IsTrue result → self.new.goes_on ≡ is_some (leaves instruction) }
        ensures nothing { IsTrue result → self.new.goes_on ≡ false → self.new.depth ≡ 0 }
        ensures room { IsTrue result → self.new.depth ≤ 128 }
        ensures agrees { IsTrue result → IsTrue self.new.leads → self.new.agrees
            ≡ (jump_agrees instruction (slice_set self.old.marks.items place (Stands depth))
            (depth - takes instruction) && (fits depth instruction && self.old.agrees)) }
        ensures brought { IsTrue result → IsTrue self.new.agrees
            → brought self.new.goes_on self.new.depth
            ≡ option_map (λ n. depth - takes instruction + n) (leaves instruction) }
        ensures marks { IsTrue result → self.new.marks.items
            ≡ jump_noted context.sort (vec_len self.old.marks) place instruction
            (slice_set self.old.marks.items place (Stands depth)) (depth - takes instruction) }
        ensures len { vec_len self.new.marks ≡ vec_len self.old.marks }
    {
        if !instruction.is_allowed(context.version, context.sort) {
            return false;
        }
        if !context.has_names(instruction) {
            self.names = false;
        }
        let takes = instruction.takes();
        if depth < takes {
            self.agrees = false;
        }
        let rest = depth.saturating_sub(takes);
        self.marks[place] = Mark::Stands(depth);
        self.bring(rest, instruction.onward(next));
        self.jump(context.sort, place, rest, instruction.jump());
        self.keep_place(place);
        true
    }
}
