//! What a walk over a unit knows of its places.

ghost use Rattle.std.specs.Prelude.{◌≡◌, ◌↔◌, ℕ, ◌<◌, ◌≤◌, IfSome, IsTrue, vec_len, true, false};
ghost use Rattle.edd_unit_rules.specs.Marks.{agrees_with, arrival, brought, depth_known, is_settled, mark_at, note_at};

/// What is known of a place.
#[derive(Clone, Copy, PartialEq, Eq, Debug)]
pub enum Mark {
    /// Nothing yet.
    Unknown,
    /// A jump leads here, with so many operands.
    Awaited(u8),
    /// An instruction is here, before which there are so many operands.
    Stands(u8),
}

/// How many operands there are at a place to which the instruction before brings `depth`, if it
/// goes on. Where it doesn't,
/// `depth` is 0.
#[inline(always)]
pub fn arrival(goes_on: bool, depth: u8, mark: Mark) -> Option<u8>
    requires room { depth ≤ 128 }
    requires nothing { goes_on ≡ false → depth ≡ 0 }
    requires fit { IfSome (depth_known mark) (λ known. known ≤ 128) }
    ensures value { result ≡ arrival (brought goes_on depth) (depth_known mark) }
    ensures room { IfSome result (λ depth. depth ≤ 128) }
{
    match mark {
        Mark::Unknown => Some(depth),
        Mark::Awaited(known) | Mark::Stands(known) => {
            if !goes_on {
                Some(known)
            } else if known == depth {
                Some(depth)
            } else {
                None
            }
        }
    }
}

/// Notes that a jump brings so many operands to a place. False where others are known there.
#[inline(always)]
pub fn note(marks: &mut Vec<Mark>, place: usize, depth: u8) -> bool
    requires { place < vec_len marks.old }
    ensures agrees { result ≡ agrees_with (mark_at marks.old.items place) depth }
    ensures marks { marks.new.items ≡ note_at marks.old.items place depth }
    ensures len { vec_len marks.new ≡ vec_len marks.old }
{
    match marks[place] {
        Mark::Unknown => {
            marks[place] = Mark::Awaited(depth);
            true
        }
        Mark::Awaited(known) | Mark::Stands(known) => known == depth,
    }
}

impl Mark {
    /// Whether no jump leads here, or there is an instruction.
    #[inline(always)]
    pub fn is_settled(self) -> bool
        ensures { result ≡ is_settled self }
    {
        !matches!(self, Mark::Awaited(_))
    }
}

/// Whether there is an instruction at each place to which a jump leads.
pub fn are_settled(marks: &[Mark]) -> bool
    ensures { IsTrue result ↔ ((q : ℕ) → is_settled (mark_at marks.now q) ≡ true) }
{
    let mut are_settled = true;
    for place in 0..marks.len() {
        are_settled = are_settled & marks[place].is_settled();
    }
    are_settled
}
