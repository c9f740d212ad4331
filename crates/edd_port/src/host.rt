//! Who answers the requests of a method.

ghost use Rattle.std.specs.Prelude.{◌≤◌, length};
ghost use Rattle.edd_syntax.specs.Answers.{answer_of};
ghost use Rattle.edd_port.specs.Books.{Book, IsLast, Replied};

use edd_instructions::Request;
use edd_syntax::answer::Answer;

/// What a host has for a request.
#[derive(Clone, Copy, Debug, PartialEq, Eq)]
pub enum Reply {
    /// An answer, which it lends.
    Give,
    /// No answer yet.
    Nothing,
    /// It failed, for example because it was out of memory.
    Failed,
}

/// Who answers requests: a user, a device, or a script. It keeps each request that it answered with
/// its answer.
pub trait Host {
    /// The requests that it answered, with their answers, and how often it had nothing or failed.
    ghost book: { Self → Book };

    /// Looks for an answer to the request. `Give` adds it, with the request, to the answers that
    /// were given.
    fn reply(&mut self, request: &Request) -> Reply
        ensures { Replied (book self.old) request.now result (book self.new) };

    /// The last answer that was given.
    fn given(&self) -> &Answer
        requires { 1 ≤ length (book self.now).pairs }
        ensures { IsLast (book self.now).pairs (answer_of result.now) };
}
