//! What a compiled image plays.

ghost use Rattle.std.specs.Prelude.{◌≡◌, ◌≢◌, ℕ, ◌≤◌, ◌<◌, ℤ, List, ◌++◌};
ghost use Rattle.std.specs.List.{AllByRecursion};
ghost use Rattle.edd_syntax.specs.declared.numbers.MethNo.{MethNo};
ghost use Rattle.edd_syntax.specs.Answers.{Answer, Change, IsValidAnswer};
ghost use Rattle.edd_syntax.specs.DeviceValues.{AreDeviceValues};
ghost use Rattle.edd_syntax.specs.Execution.{OutOfTurns, run};
ghost use Rattle.edd_image.specs.Contents.{contents_in};
ghost use Rattle.edd_instructions.specs.Agreement.{string_numbered};
ghost use Rattle.edd_machine.specs.Types.{types_in};
ghost use Rattle.edd_port.specs.declared.fault.PlayFault.{PlayFault};
ghost use Rattle.edd_port.specs.declared.playing.Ending.TheVariants as ending;
ghost use Rattle.edd_port.specs.declared.turn.Turn.TheVariants as turn;
ghost use Rattle.edd_port.specs.Books.{Pair};
ghost use Rattle.edd_port.specs.Drives.{driven, standing};
ghost use Rattle.edd_port.specs.Plays.{IsPlayFault};
ghost use Rattle.edd_port.specs.Runs.{Run};
ghost use Rattle.edd_port.specs.Turns.{turn_of};
ghost use Rattle.edd_compiler.specs.Images.{IsImageOf};
ghost use Rattle.edd_promise.specs.Plays.{BeginsWith, Changes, IsRefusedPlay, PlayShows, SameSession, SameShown, Shown};
ghost use Rattle.edd_promise.specs.Sessions.{Past, IsDriven, IsSession, answers_of, requests_of};

/// What `play` shows of a method of what `compile` gave is what the unit's method does, under all
/// values of a device and all valid answers.
///
/// `over`: a transcript that isn't `Spent` is that of the unit's run, which made the same changes of
/// variables in order. `spent`: one that is holds the first of the unit's requests, after the first of
/// its changes. `plays`: where the unit's run is over, enough steps show it.
/// `in_progress`: where it goes on, as many steps or more show the same so far. `refused`: a fault
/// of `play` is one of the method or the values.
pub fn compiled_methods_play()
    ensures over { (text b : List ℕ) (is : IsImageOf text b) (method : MethNo) (device : List ℤ)
        (answers : List Answer) (steps : ℕ) (shown : Shown)
        → PlayShows b method device steps answers shown
        → AllByRecursion (IsValidAnswer (types_in b)) answers
        → shown.ending ≢ ending.Spent
        → (turns : ℕ) × SameShown (string_numbered (contents_in b))
        (run turns is.accepted.resolved method device answers) shown
        × Changes b method device steps answers
        (run turns is.accepted.resolved method device answers).changes }
    ensures spent { (text b : List ℕ) (is : IsImageOf text b) (method : MethNo) (device : List ℤ)
        (answers : List Answer) (steps : ℕ) (shown : Shown)
        → PlayShows b method device steps answers shown
        → AllByRecursion (IsValidAnswer (types_in b)) answers
        → shown.ending ≡ ending.Spent
        → (changed : List Change) × Changes b method device steps answers changed
        × BeginsWith (string_numbered (contents_in b)) is.accepted.resolved method device answers
        shown.requests changed }
    ensures plays { (text b : List ℕ) (is : IsImageOf text b) (method : MethNo) (device : List ℤ)
        (answers : List Answer) (turns : ℕ) → AreDeviceValues (types_in b) device
        → AllByRecursion (IsValidAnswer (types_in b)) answers
        → (run turns is.accepted.resolved method device answers).ending ≢ OutOfTurns
        → (enough : ℕ) × ((steps : ℕ) → enough ≤ steps → (shown : Shown)
        → PlayShows b method device steps answers shown
        → SameShown (string_numbered (contents_in b))
        (run turns is.accepted.resolved method device answers) shown) }
    ensures in_progress { (text b : List ℕ) (is : IsImageOf text b) (method : MethNo)
        (device : List ℤ) (answers : List Answer) (turns : ℕ)
        → AreDeviceValues (types_in b) device
        → AllByRecursion (IsValidAnswer (types_in b)) answers
        → (run turns is.accepted.resolved method device answers).ending ≡ OutOfTurns
        → (steps : ℕ) × (turns ≤ steps) × ((shown : Shown)
        → PlayShows b method device steps answers shown
        → SameShown (string_numbered (contents_in b))
        (run turns is.accepted.resolved method device answers) shown) }
    ensures refused { (text b : List ℕ) (is : IsImageOf text b) (method : MethNo)
        (device : List ℤ) (answers : List Answer) (steps : ℕ) (fault : PlayFault)
        → IsPlayFault b method device steps answers fault
        → AllByRecursion (IsValidAnswer (types_in b)) answers
        → IsRefusedPlay is.accepted.resolved method device fault }
{}

/// A session on what `compile` gave, whatever calls it takes and however it is cut, shows what the
/// unit's method does under the answers that it took.
///
/// `over`: where it doesn't show `Spent`, it is where the unit's run is, with the same requests,
/// changes and values. `spent`: where it does, it has made the first of the unit's requests and
/// changes. `ends`: where the unit's run is over under some
/// answers, a session that takes them in order and shows `Spent` has executed fewer instructions
/// than some number.
pub fn compiled_sessions_run()
    ensures over { (text b : List ℕ) (is : IsImageOf text b) (method : MethNo) (device : List ℤ)
        (past : Past) (now : Run) → IsSession b method device past now
        → turn_of now.state.status ≢ turn.Spent
        → (turns : ℕ) × SameSession (string_numbered (contents_in b))
        (run turns is.accepted.resolved method device past.answers) past.requests past.changes now }
    ensures spent { (text b : List ℕ) (is : IsImageOf text b) (method : MethNo) (device : List ℤ)
        (past : Past) (now : Run) → IsSession b method device past now
        → turn_of now.state.status ≡ turn.Spent
        → BeginsWith (string_numbered (contents_in b)) is.accepted.resolved method device
        past.answers past.requests past.changes }
    ensures ends { (text b : List ℕ) (is : IsImageOf text b) (method : MethNo) (device : List ℤ)
        (answers : List Answer) (turns : ℕ) → AreDeviceValues (types_in b) device
        → AllByRecursion (IsValidAnswer (types_in b)) answers
        → (run turns is.accepted.resolved method device answers).ending ≢ OutOfTurns
        → (enough : ℕ) × ((past : Past) (now : Run) (more : List Answer)
        → IsSession b method device past now → past.answers ++ more ≡ answers
        → turn_of now.state.status ≡ turn.Spent → past.steps < enough) }
{}

/// A host that drives a session on what `compile` gave from its start is asked what the unit's
/// method asks under the answers that were accepted.
///
/// `over`: where the session doesn't show `Spent`, the requests of the accepted pairs, and the one
/// that is pending, are those of the unit's run, and the session is where that is. `spent`: where
/// it does, they are the first of the unit's requests. In both the changes of variables are so too.
pub fn compiled_methods_drive()
    ensures over { (text b : List ℕ) (is : IsImageOf text b) (method : MethNo) (device : List ℤ)
        (steps : ℕ) (pairs : List Pair) (now : Run)
        (drives : IsDriven b method device steps pairs now)
        → turn_of now.state.status ≢ turn.Spent
        → (turns : ℕ) × SameSession (string_numbered (contents_in b))
        (run turns is.accepted.resolved method device (answers_of pairs))
        (requests_of pairs ++ standing now.state.status) (driven drives.first steps pairs).changes
        now }
    ensures spent { (text b : List ℕ) (is : IsImageOf text b) (method : MethNo) (device : List ℤ)
        (steps : ℕ) (pairs : List Pair) (now : Run)
        (drives : IsDriven b method device steps pairs now)
        → turn_of now.state.status ≡ turn.Spent
        → BeginsWith (string_numbered (contents_in b)) is.accepted.resolved method device
        (answers_of pairs) (requests_of pairs ++ standing now.state.status)
        (driven drives.first steps pairs).changes }
{}
