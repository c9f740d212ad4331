//! Laws of sessions, for their callers.

ghost use Rattle.std.specs.Prelude.{◌≡◌, ◌≢◌, ℕ, ◌+◌, ◌-◌, ℤ, List, [], ◌∷◌, None};
ghost use Rattle.edd_syntax.specs.Answers.{Answer, answer_fault, values_set};
ghost use Rattle.edd_instructions.specs.declared.requests.Request.{Request};
ghost use Rattle.edd_instructions.specs.declared.records.Status.TheVariants.{Asking};
ghost use Rattle.edd_instructions.specs.declared.unit.Sort.TheVariants.{Method};
ghost use Rattle.edd_instructions.specs.AbortMethods.{answered_in, execute_in, next, start_in};
ghost use Rattle.edd_image.specs.Contents.{Contents};
ghost use Rattle.edd_instructions.specs.Execution.{Stuck, preceded, resumed_following};
ghost use Rattle.edd_instructions.specs.Reading.{environment_of};
ghost use Rattle.edd_instructions.specs.Steps.{State};
ghost use Rattle.edd_instructions.specs.Validity.{IsValid};
ghost use Rattle.edd_machine.specs.declared.machine.Machine.{Machine};
ghost use Rattle.edd_machine.specs.Running.{IsMachine};
ghost use Rattle.edd_machine.specs.Types.{types_in};
ghost use Rattle.edd_port.specs.Refusals.{CodeFits, code_of, refusal, sets_of, without_sets};
ghost use Rattle.edd_port.specs.declared.suspension.Suspended.{Suspended};
ghost use Rattle.edd_port.specs.Runs.{followed};
ghost use Rattle.edd_port.specs.Suspensions.{IsBodyIn, IsSuspendedIn};

/// Every cutting of a run into budgets gives the same run, and an answer may be handed in wherever
/// a request is pending.
pub fn sessions_may_be_cut()
    ensures cut { (c : Contents) (j k : ℕ) (s : State) → (execute_in c j s []).ending ≢ Stuck
        → execute_in c (j + k) s []
        ≡ resumed_following (next (start_in c)) (environment_of c) k (execute_in c j s []) }
    ensures answered_later { (c : Contents) (j k : ℕ) (s : State) (answers : List Answer)
        → let o = execute_in c j s [] in
        execute_in c (j + k) s answers
        ≡ followed o (execute_in c ((j + k) - o.steps) o.state answers) }
    ensures met { (c : Contents) (k : ℕ) (s : State) (r : Request) (answer : Answer)
        (rest : List Answer)
        → s.status ≡ Asking r → answer_fault (environment_of c).types answer ≡ None
        → execute_in c k s (answer ∷ rest) ≡ preceded [] (answered_in c s answer).changes
        (execute_in c k (answered_in c s answer).state rest) }
{}

/// An answer that is not refused may be given to a machine in two parts: its sets are made in the
/// values first, over which the machine still asks, and then its code is taken alone.
pub fn sets_may_be_made_first()
    ensures asks { (b : List ℕ) (m : Machine) (values : List ℤ) (answer : Answer)
        → IsMachine b m values → refusal (types_in b) m.status answer ≡ None → CodeFits answer
        → IsMachine b m (values_set values (sets_of answer)) }
    ensures state { (c : Contents) (s : State) (answer : Answer)
        → (answered_in c (record s { values = values_set s.values (sets_of answer) })
        (without_sets (code_of answer))).state
        ≡ (answered_in c s answer).state }
{}

/// The unit of a machine that runs a method is the body of the method whose number it has, so that
/// what is suspended of a run can be resumed.
pub fn methods_may_be_suspended()
    ensures bodies { (b : List ℕ) (m : Machine) (values : List ℤ) → IsValid b → IsMachine b m values
        → m.unit.sort ≡ Method → IsBodyIn b m.unit }
    ensures resumed { (b : List ℕ) (s : Suspended) → IsValid b
        → IsMachine b s.machine s.values.numbers.items → s.machine.unit.sort ≡ Method
        → IsSuspendedIn b s }
{}
