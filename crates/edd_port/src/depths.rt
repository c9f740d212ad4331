//! Whether a place and a number of operands belong to a unit.

ghost use Rattle.std.specs.Prelude.{◌≡◌, ◌≤◌, ◌↔◌, ℕ, IsTrue};
ghost use Rattle.edd_instructions.specs.declared.unit.Context.{Context};
ghost use Rattle.edd_instructions.specs.Steps.{StandsWith};
ghost use Rattle.edd_instructions.specs.Units.{IsValidUnit, instructions};
ghost use Rattle.edd_unit_rules.specs.Standing.{jumps_to};
ghost use Rattle.edd_port.specs.Origins.{IsOriginOf, after_way};

use edd_instructions::{Instruction, Way, decode};

/// A place inside a run of instructions that go on into each other.
#[derive(Clone, Copy)]
pub(crate) struct Segment {
    /// The place where the run starts.
    pub start: usize,
    /// How many operands more than at its start are at the place, plus 128: at most 128 are at
    /// each, so that it is never negative.
    pub rise: usize,
}

/// From where the number of operands at a place follows.
pub(crate) enum Origin {
    /// No instruction is there.
    Missing,
    /// No instruction before it leads there, so that no operands are there.
    Fresh,
    /// An instruction of this run leads there.
    Led(Segment),
}

// Whether an instruction jumps to the place.
fn is_jump_to(instruction: Instruction, place: usize) -> bool
    ensures { (at next : ℕ) → result ≡ jumps_to place (record {
      place = at;
      instruction = instruction;
      next = next;
    }) }
{
    match instruction.jump() {
        Some(way) => way.to == place,
        None => false,
    }
}

impl Segment {
    // The run after an instruction that has left so many of the operands, and its way onward. Where
    // it has none, the next instruction starts a run.
    fn after(self, rest: usize, way: Option<Way>, next: usize) -> Segment
        requires { rest ≤ 256 }
        ensures { result ≡ after_way self.start rest next way }
    {
        match way {
            Some(way) => Segment {
                start: self.start,
                rise: rest + usize::from(way.leaves),
            },
            None => Segment {
                start: next,
                rise: 128,
            },
        }
    }
}

// From where the number of operands at a place follows. A jump from before it decides, else the
// instruction that goes on to it.
fn origin_of(code: &[u8], place: usize) -> Origin
    requires { (context : Context) × IsValidUnit context code.now }
    ensures { IsOriginOf (instructions code.now) place result }
{
    let mut segment = Segment {
        start: 0,
        rise: 128,
    };
    let mut at = 0;
    while at < place {
        let Some((instruction, next)) = decode(code, at) else {
            return Origin::Missing;
        };
        let rest = segment.rise - usize::from(instruction.takes());
        if is_jump_to(instruction, place) {
            return Origin::Led(Segment {
                start: segment.start,
                rise: rest,
            });
        }
        segment = segment.after(rest, instruction.onward(next), next);
        at = next;
    }
    if at > place {
        return Origin::Missing;
    }
    let Some(_) = decode(code, at) else {
        return Origin::Missing;
    };
    if segment.start < at {
        Origin::Led(segment)
    } else {
        Origin::Fresh
    }
}

/// Whether an instruction is at the place, and this number of operands belongs there. It takes no
/// memory.
pub(crate) fn stands_with(code: &[u8], place: usize, count: usize) -> bool
    requires { (context : Context) × IsValidUnit context code.now }
    ensures { IsTrue result ↔ StandsWith code.now place count }
{
    let mut at = place;
    let mut rise = 128;
    loop {
        match origin_of(code, at) {
            Origin::Missing => return false,
            Origin::Fresh => return rise - 128 == count,
            Origin::Led(segment) => {
                at = segment.start;
                rise = rise + segment.rise - 128;
            }
        }
    }
}
