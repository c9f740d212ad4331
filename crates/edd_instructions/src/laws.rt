//! Laws of the definitions, for the crates above.

ghost use Rattle.std.specs.Prelude.{◌≡◌, ◌≢◌, ℕ, ℤ, ◌+◌, ◌≤◌, List, [], ◌∷◌, ◌++◌, length, drop, Option, None, Some};
ghost use Rattle.std.specs.List.{AllByRecursion};
ghost use Rattle.edd_instructions.specs.declared.instruction.Instruction.{Instruction};
ghost use Rattle.edd_instructions.specs.Decoding.{instruction_at};
ghost use Rattle.edd_image.specs.Layout.{Sections, AreSections, layout};
ghost use Rattle.edd_instructions.specs.Units.{IsValidUnit};
ghost use Rattle.edd_instructions.specs.Validity.{code_limit, IsSound, IsValid};
ghost use Rattle.edd_syntax.specs.Answers.{Answer, IsValidAnswer, answer_fault};
ghost use Rattle.edd_syntax.specs.declared.numbers.AttrRef.{AttrRef};
ghost use Rattle.edd_syntax.specs.DeviceValues.{AreDeviceValues, VariableType};
ghost use Rattle.edd_syntax.specs.Words.{Words};
ghost use Rattle.edd_instructions.specs.declared.requests.Request.{Request};
ghost use Rattle.edd_instructions.specs.declared.records.Status.TheVariants.{Running, Asking};
ghost use Rattle.edd_instructions.specs.declared.unit.Context.{Context};
ghost use Rattle.edd_instructions.specs.Steps.{State, Environment, Effect, IsState, opening, step};
ghost use Rattle.edd_instructions.specs.Execution.{Waiting, OutOfSteps, IsGoodEnding, AsksNothing, answered, closed, execute, execute_following, nothing_met, preceded, resumed, resumed_following};
ghost use Rattle.edd_syntax.specs.declared.numbers.StrNo.{StrNo};
ghost use Rattle.edd_syntax.specs.declared.numbers.MethNo.{MethNo};
ghost use Rattle.edd_syntax.specs.declared.reference.Target.{Target};
ghost use Rattle.edd_syntax.specs.Device.{environment};
ghost use Rattle.edd_syntax.specs.Item.{Description};
ghost use Rattle.edd_syntax.specs.Execution.{Transcript, run};
ghost use Rattle.edd_instructions.specs.AbortMethods.{Start, next, execute_in};
ghost use Rattle.edd_instructions.specs.Agreement.{string_numbered};
ghost use Rattle.edd_image.specs.Contents.{Contents, AttributeFields, contents_of};
ghost use Rattle.edd_instructions.specs.Reading.{Reading, IsReading, body_of, opening_of};
ghost use Rattle.edd_instructions.specs.MethodAgreement.{SameOutcome, AgreesOnRuns, EachIsBody};
ghost use Rattle.edd_instructions.specs.Spelling.{AreBytes, spelling, IsSpelled};

/// An instruction that was spelled is read again, whatever is around it.
pub fn spelled_is_read()
    ensures { (before after : List ℕ) (i : Instruction) → IsSpelled i
        → instruction_at (before ++ (spelling i ++ after)) (length before)
        ≡ Some (i, length before + length (spelling i)) }
{}

/// An instruction that is read is spelled by the bytes from its place to the next.
pub fn read_is_spelled()
    ensures { (code : List ℕ) (place : ℕ) (i : Instruction) (next : ℕ) → AreBytes code
        → instruction_at code place ≡ Some (i, next)
        → IsSpelled i × (drop place code ≡ spelling i ++ drop next code) }
{}

/// A layout whose code is within the limit, whose rows keep the rules and whose names, strings and
/// units are valid is a valid image.
pub fn sound_parts_are_valid()
    ensures { (s : Sections) → AreSections s → length s.code ≤ code_limit
        → IsSound (contents_of s) → IsValid (layout s) }
{}

/// A valid unit opens in a state: at its first byte, with no operands and slots of 0.
pub fn openings_are_states()
    ensures { (context : Context) (env : Environment) (code : List ℕ) (values : List ℤ)
        → IsValidUnit context code → length env.types ≡ context.counts.variables
        → AreDeviceValues env.types values
        → IsState context env
        (opening (record { sort = context.sort; code = code }) context.slots values) }
{}

/// A running state of a valid unit has a step, and what it results in is a state again.
pub fn steps_keep_the_state()
    ensures { (context : Context) (env : Environment) (s : State)
        → IsValidUnit context s.unit.code → IsState context env s → s.status ≡ Running
        → (e : Effect) × (step env s ≡ Some e) × IsState context env e.state }
{}

/// A valid answer to a state that asks gives a state again.
pub fn answers_keep_the_state()
    ensures { (context : Context) (env : Environment) (s : State) (r : Request) (answer : Answer)
        → IsState context env s → s.status ≡ Asking r → IsValidAnswer env.types answer
        → IsState context env (answered s answer).state }
{}

/// A run that is out of steps after `j` goes on for `k` more as if it had not been cut. So does one
/// in which something follows the steps and the answers, as long as that makes no request of its
/// own.
pub fn runs_may_be_cut()
    ensures following { (follow : State → State) → AsksNothing follow
        → (env : Environment) (j k : ℕ) (s : State) (answers : List Answer)
        → (execute_following follow env j s answers).ending ≡ OutOfSteps
        → execute_following follow env (j + k) s answers ≡ resumed_following follow env k
        (execute_following follow env j s answers) }
    ensures alone { (env : Environment) (j k : ℕ) (s : State) (answers : List Answer)
        → (execute env j s answers).ending ≡ OutOfSteps
        → execute env (j + k) s answers ≡ resumed env k (execute env j s answers) }
{}

/// A pending request is met by the next answer, whatever answers follow: the answer's sets are
/// changes, and the run goes on from the state after them and from what follows that. Without an
/// answer the run waits.
pub fn requests_are_met()
    ensures met { (follow : State → State) → AsksNothing follow
        → (env : Environment) (k : ℕ) (s : State) (r : Request) (answer : Answer)
        (rest : List Answer)
        → s.status ≡ Asking r → answer_fault env.types answer ≡ None
        → execute_following follow env k s (answer ∷ rest)
        ≡ preceded [] (answered s answer).changes
        (execute_following follow env k (follow (answered s answer).state) rest) }
    ensures waits { (follow : State → State) → AsksNothing follow
        → (env : Environment) (k : ℕ) (s : State) (r : Request) → s.status ≡ Asking r
        → execute_following follow env k s [] ≡ closed (nothing_met s [] None) Waiting }
{}

/// A run that is over results in the same within more steps.
pub fn what_is_over_stays()
    ensures { (follow : State → State) (env : Environment) (m n : ℕ) → m ≤ n
        → (s : State) (answers : List Answer)
        → (execute_following follow env m s answers).ending ≢ OutOfSteps
        → execute_following follow env n s answers ≡ execute_following follow env m s answers }
{}

/// A run takes at most as many steps as it may, and one that is out of steps has taken all of them.
/// Answers are no steps, and neither is what follows.
pub fn steps_are_counted()
    ensures at_most { (follow : State → State) (env : Environment) (n : ℕ) (s : State)
        (answers : List Answer) → (execute_following follow env n s answers).steps ≤ n }
    ensures all { (follow : State → State) (env : Environment) (n : ℕ) (s : State)
        (answers : List Answer) → (execute_following follow env n s answers).ending ≡ OutOfSteps
        → (execute_following follow env n s answers).steps ≡ n }
{}

/// From a state of a valid unit, under valid answers, a run results in a state of the same unit.
/// It is never stuck, and no answer is bad.
pub fn runs_keep_the_state()
    ensures { (context : Context) (env : Environment) (n : ℕ) (s : State) (answers : List Answer)
        → IsValidUnit context s.unit.code → IsState context env s
        → AllByRecursion (IsValidAnswer env.types) answers
        → IsState context env (execute env n s answers).state
        × ((execute env n s answers).state.unit ≡ s.unit)
        × IsGoodEnding (execute env n s answers).ending }
{}

/// What is read of an attribute under the same values is always the same.
pub fn readings_are_unique()
    ensures { (b : List ℕ) (ref : AttrRef) (values : List ℤ) (r q : Reading)
        → IsReading b ref values r → IsReading b ref values q → r ≡ q }
{}

/// A machine that comes along with the source agrees with it on all runs: where for every number of
/// turns it results in the same within that many steps or more, what one of them results in when
/// it is over the other results in as well.
pub fn followed_runs_agree()
    ensures { (string_numbered : StrNo → Option Words) (types : List VariableType)
        (source : (turns : ℕ) → List ℤ → List Answer → Transcript) (follow : State → State)
        (env : Environment) (start : List ℤ → State)
        → ((values : List ℤ) (answers : List Answer) → AreDeviceValues types values
        → AllByRecursion (IsValidAnswer types) answers → (n : ℕ)
        → (k : ℕ) × (n ≤ k) × SameOutcome string_numbered (source n values answers)
        (execute_following follow env k (start values) answers))
        → AgreesOnRuns string_numbered types source
        (λ k values answers. execute_following follow env k (start values) answers) }
{}

/// What follows an abort in a run makes no request of its own.
pub fn abort_methods_ask_nothing()
    ensures { (start_of : MethNo → Option Start) → AsksNothing (next start_of) }
{}

/// Where the code of each method alone does what the method's body does, the runs of the image, in
/// which abort methods follow, are those of the methods.
pub fn joined_runs_agree()
    ensures { (unit : Description Target) (c : Contents) → EachIsBody unit c
        → (method : MethNo) (row : AttributeFields) → body_of c method ≡ Some row
        → AgreesOnRuns (string_numbered c) (environment unit).variables
        (λ n values answers. run n unit method values answers)
        (λ k values answers. execute_in c k (opening_of c row values) answers) }
{}
