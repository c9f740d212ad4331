//! What the program prints of a source, said of the source alone: a law that joins the contract of
//! the program with those of `compile`, `attribute` and `play`.
#![tactic(auto)]

ghost use Rattle.std.specs.Prelude.{ℕ, List, Option};
ghost use Rattle.edd_files.specs.Saves.{Account};
ghost use Rattle.edd_program.specs.declared.request.Request.{Request};
ghost use Rattle.edd_program.specs.Done.{Does};
ghost use Rattle.edd_terminal.specs.Terminal.{Prints};

/// Where `view` and `try` succeed, the output grows by exactly what the source's description says: its
/// entries with their attributes under the values that the script sets, or the requests of its method,
/// how that ended, and the values that it left. No image is spoken of.
pub fn sources_reach_the_terminal()
    ensures { (request : Request) (before after : Option Account) (old new : Option (List ℕ))
        → Does request before after old new → Prints request before old new }
{}
