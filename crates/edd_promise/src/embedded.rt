//! What the sessions of a program in C show of a compiled image.

ghost use Rattle.std.specs.Prelude.{◌≡◌, ◌≢◌, ℕ, ℤ, List};
ghost use Rattle.edd_syntax.specs.declared.numbers.MethNo.{MethNo};
ghost use Rattle.edd_syntax.specs.Execution.{run};
ghost use Rattle.edd_image.specs.Contents.{contents_in};
ghost use Rattle.edd_instructions.specs.Agreement.{string_numbered};
ghost use Rattle.edd_port.specs.declared.turn.Turn.TheVariants as turn;
ghost use Rattle.edd_port.specs.Runs.{Run};
ghost use Rattle.edd_port.specs.Turns.{turn_of};
ghost use Rattle.edd_embed.specs.declared.sessions.PlainSession.{PlainSession};
ghost use Rattle.edd_compiler.specs.Images.{IsImageOf};
ghost use Rattle.edd_promise.specs.Embedded.{ComesPlain, StandsFor};
ghost use Rattle.edd_promise.specs.Plays.{BeginsWith, SameSession};
ghost use Rattle.edd_promise.specs.Sessions.{Past};

/// Whatever calls a program in C makes of a session, one after the other, its numbers stand for a
/// session that made these calls.
pub fn embedded_sessions_stand()
    ensures { (b : List ℕ) (method : MethNo) (device : List ℤ) (past : Past) (p : PlainSession)
        (values : List ℤ) → ComesPlain b method device past p values
        → (now : Run) × StandsFor b method device past p values now }
{}

/// A session of a program in C on what `compile` gave, whatever calls it takes and however it is cut,
/// shows what the unit's method does under the answers that it took.
///
/// `over`: where it doesn't show that it goes on, it is where the unit's run is, with the same requests,
/// changes and values. `spent`: where it does, it has made the first of the unit's requests and
/// changes.
pub fn compiled_embedded_sessions_run()
    ensures over { (text b : List ℕ) (is : IsImageOf text b) (method : MethNo) (device : List ℤ)
        (past : Past) (p : PlainSession) (values : List ℤ) (now : Run)
        → StandsFor b method device past p values now
        → turn_of now.state.status ≢ turn.Spent
        → (turns : ℕ) × SameSession (string_numbered (contents_in b))
        (run turns is.accepted.resolved method device past.answers) past.requests past.changes now }
    ensures spent { (text b : List ℕ) (is : IsImageOf text b) (method : MethNo) (device : List ℤ)
        (past : Past) (p : PlainSession) (values : List ℤ) (now : Run)
        → StandsFor b method device past p values now
        → turn_of now.state.status ≡ turn.Spent
        → BeginsWith (string_numbered (contents_in b)) is.accepted.resolved method device
        past.answers past.requests past.changes }
{}
