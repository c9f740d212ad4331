//! Laws of simulated devices, for their callers.

ghost use Rattle.std.specs.Prelude.{◌≡◌, ℕ, ℤ, List, Ok, Result};
ghost use Rattle.std.specs.List.{AllByRecursion};
ghost use Rattle.edd_syntax.specs.Answers.{Change};
ghost use Rattle.edd_instructions.specs.declared.records.Record.{Record};
ghost use Rattle.edd_instructions.specs.declared.requests.Request.{Request};
ghost use Rattle.edd_device.specs.declared.fault.DeviceFault.{DeviceFault};
ghost use Rattle.edd_device.specs.Copies.{IsAmong, replied};
ghost use Rattle.edd_device.specs.Devices.{IsReply, Simulated, Step};

/// The same device, request and values of the instrument give the same.
pub fn replies_are_unique()
    ensures { (s : Simulated) (values : List ℤ) (request : Request)
        (r q : Result Step DeviceFault) → IsReply s values request r
        → IsReply s values request q
        → r ≡ q }
{}

/// Each set of an answer is of a variable of the reply.
pub fn sets_are_of_the_reply()
    ensures { (instrument device : List ℕ) (reply : List Record) (values : List ℤ)
        (sets : List Change) → replied instrument device reply values ≡ Ok sets
        → AllByRecursion (λ set. IsAmong reply set.variable) sets }
{}
