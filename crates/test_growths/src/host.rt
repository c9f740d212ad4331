//! A host that has no memory at first.

ghost use Rattle.std.specs.Prelude.{◌≡◌, map};
ghost use Rattle.edd_syntax.specs.Answers.{answer_of};

use edd_instructions::Request;
use edd_port::{Host, Reply};
use edd_syntax::answer::Answer;
use std::alloc::Global;

/// A request that was answered, and its answer.
type Given = (Request, Answer);

/// More answers than any memory holds.
const TOO_MANY: usize = 1 << 50;

/// A host that answers each request by the code 10. For its first one it asks for more memory than
/// there is, and fails.
#[derive(Drop)]
pub struct Crowded {
    given: Vec<Given>,
    nothing: u64,
    failed: u64,
}

impl Crowded {
    pub fn new(alloc: Global) -> Crowded {
        Crowded {
            given: Vec::new(alloc),
            nothing: 0,
            failed: 0,
        }
    }
}

// Whether there is room for one more answer. For the first one more is asked for than there is.
fn make_room(given: &mut Vec<Given>, is_first: bool) -> bool
    ensures kept { given.new.items ≡ given.old.items }
{
    let room = if is_first { TOO_MANY } else { 1 };
    given.reserve(room).is_ok()
}

// The answer to each request.
fn ten(alloc: Global) -> Answer {
    Answer::Go {
        code: 10,
        sets: Vec::new(alloc),
    }
}

impl Host for Crowded {
    ghost book = { λ h. record {
      pairs = map (λ g. record { request = g.0; answer = answer_of g.1 }) h.given.items;
      nothing = h.nothing;
      failed = h.failed;
    } };

    fn reply(&mut self, request: &Request) -> Reply {
        let is_first = self.failed == 0;
        if !make_room(&mut self.given, is_first) {
            self.failed = self.failed.saturating_add(1);
            return Reply::Failed;
        }
        let answer = ten(*self.given.allocator());
        let Ok(()) = self.given.push((*request, answer)) else {
            self.failed = self.failed.saturating_add(1);
            return Reply::Failed;
        };
        Reply::Give
    }

    fn given(&self) -> &Answer {
        let last = &self.given[self.given.len() - 1];
        &last.1
    }
}
