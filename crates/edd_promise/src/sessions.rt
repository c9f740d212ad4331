//! Sessions, however they are cut, answered and driven.

ghost use Rattle.std.specs.Prelude.{◌≡◌, ◌≢◌, ℕ, ◌≤◌, List, ◌++◌};
ghost use Rattle.edd_syntax.specs.Answers.{Answer};
ghost use Rattle.edd_image.specs.Contents.{Contents};
ghost use Rattle.edd_instructions.specs.AbortMethods.{execute_in};
ghost use Rattle.edd_instructions.specs.Execution.{Waiting};
ghost use Rattle.edd_instructions.specs.Steps.{State};
ghost use Rattle.edd_port.specs.Runs.{Run, advanced};
ghost use Rattle.edd_promise.specs.Sessions.{Past, Comes, IsOneRun};

/// Calls on a session, in any order and within any budgets, get it to where one execution gets that
/// executes as many instructions under the same answers.
pub fn sessions_are_one_run()
    ensures { (first now : Run) (past : Past) → Comes first past now → IsOneRun first past now }
{}

/// Where a run doesn't wait for an answer, more answers change nothing but those that are left.
pub fn answers_left_over_change_nothing()
    ensures { (c : Contents) (steps : ℕ) (s : State) (answers others : List Answer)
        → let o = execute_in c steps s answers in
        o.ending ≢ Waiting
        → execute_in c steps s (answers ++ others)
        ≡ record o { answers = o.answers ++ others } }
{}

/// A session that is advanced executes at most as many instructions as its budget.
pub fn budgets_are_kept()
    ensures { (r : Run) (budget : ℕ) → (advanced r budget).steps ≤ budget }
{}
