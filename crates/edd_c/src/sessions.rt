//! Sessions: methods that are started, advanced and answered, and all that is kept of them is the
//! caller's.

ghost use Rattle.std.specs.Prelude.{◌≡◌, ◌≢◌, ◌≤◌, ◌⊎◌, None, Some, length, option_map};
ghost use Rattle.edd_instructions.specs.Validity.{IsValid};
ghost use Rattle.edd_port.specs.declared.fault.StartFault.{StartFault};
ghost use Rattle.edd_port.specs.Faults.{IsStartFault};
ghost use Rattle.edd_port.specs.Turns.{turn_of};
ghost use Rattle.edd_embed.specs.declared.turns.SessionRefusal.{SessionRefusal};
ghost use Rattle.edd_embed.specs.Images.{AreOf};
ghost use Rattle.edd_embed.specs.Sessions.{Advances, Answers, IsSession, IsSessionRefusal, Starts, answer_given, plain_turn, status_from};
ghost use Rattle.edd_embed.specs.Statuses.{session_status, start_status};

use edd_embed::statuses::{DONE, NO_SESSION, OTHER_IMAGE, session_status, start_status};
use edd_embed::{
    Given, ImageNumbers, PlainSession, PlainTurn, Setting, advance_session, answer_session,
    start_session, turn_session,
};
use edd_syntax::numbers::MethNo;

/// Starts a method.
#[unsafe(no_mangle)]
pub extern "C" fn edd_start(
    bytes: &[u8],
    image: &ImageNumbers,
    method: u16,
    values: &[i64],
    session: &mut PlainSession,
) -> u32
    requires { AreOf image.now bytes.now → IsValid bytes.now }
    ensures sound { result ≡ 0
        → Starts bytes.now (record { 0 = method }) values.now session.new }
    ensures refused { result ≢ 0 → result ≢ 260 → (fault : StartFault)
        × (result ≡ start_status fault)
        × IsStartFault bytes.now (record { 0 = method }) values.now fault }
    ensures accepted { result ≢ 260 → AreOf image.now bytes.now }
    ensures other { result ≡ 260 → ¬ AreOf image.now bytes.now }
    ensures kept { result ≢ 0 → session.new ≡ session.old }
{
    let Some(image) = image.image(bytes) else {
        return OTHER_IMAGE;
    };
    match start_session(&image, MethNo(method), values, session) {
        Ok(()) => DONE,
        Err(fault) => start_status(fault),
    }
}

/// Executes at most so many instructions, and says where the session is.
#[unsafe(no_mangle)]
pub extern "C" fn edd_advance(
    bytes: &[u8],
    image: &ImageNumbers,
    session: &mut PlainSession,
    values: &mut [i64],
    budget: u32,
    turn: &mut PlainTurn,
) -> u32
    requires { AreOf image.now bytes.now → IsValid bytes.now }
    ensures sound { result ≡ 0 → Advances bytes.now session.old values.old budget
        session.new values.new turn.new }
    ensures none { result ≡ 262 → ¬ IsSession bytes.now session.old values.old }
    ensures refused { result ≢ 0 → (result ≡ 260) ⊎ (result ≡ 262) }
    ensures accepted { result ≢ 260 → AreOf image.now bytes.now }
    ensures other { result ≡ 260 → ¬ AreOf image.now bytes.now }
    ensures session_kept { result ≢ 0 → session.new ≡ session.old }
    ensures values_kept { result ≢ 0 → values.new ≡ values.old }
    ensures turn_kept { result ≢ 0 → turn.new ≡ turn.old }
{
    let Some(image) = image.image(bytes) else {
        return OTHER_IMAGE;
    };
    match advance_session(&image, session, values, budget) {
        Some(shown) => {
            *turn = shown;
            DONE
        }
        None => NO_SESSION,
    }
}

/// Answers the pending request.
#[unsafe(no_mangle)]
pub extern "C" fn edd_reply(
    bytes: &[u8],
    image: &ImageNumbers,
    session: &mut PlainSession,
    values: &mut [i64],
    answer: &Given,
    settings: &[Setting],
) -> u32
    requires { AreOf image.now bytes.now → IsValid bytes.now }
    ensures sound { result ≡ 0 → Answers bytes.now session.old values.old
        (answer_given answer.now settings.now) session.new values.new }
    ensures enough { result ≡ 0 → answer.now.settings ≤ length settings.now }
    ensures refused { result ≢ 0 → result ≢ 260 → (why : SessionRefusal)
        × (result ≡ session_status why) × IsSessionRefusal bytes.now session.old values.old
        answer.now settings.now why }
    ensures accepted { result ≢ 260 → AreOf image.now bytes.now }
    ensures other { result ≡ 260 → ¬ AreOf image.now bytes.now }
    ensures session_kept { result ≢ 0 → session.new ≡ session.old }
    ensures values_kept { result ≢ 0 → values.new ≡ values.old }
{
    let Some(image) = image.image(bytes) else {
        return OTHER_IMAGE;
    };
    match answer_session(&image, session, values, *answer, settings) {
        Ok(()) => DONE,
        Err(why) => session_status(why),
    }
}

/// Where a session is, by its own numbers.
#[unsafe(no_mangle)]
pub extern "C" fn edd_where(session: &PlainSession, turn: &mut PlainTurn) -> u32
    ensures sound { result ≡ 0
        → option_map (λ st. plain_turn (turn_of st)) (status_from session.now.turn)
        ≡ Some turn.new }
    ensures none { result ≡ 262 → status_from session.now.turn ≡ None }
    ensures refused { result ≢ 0 → result ≡ 262 }
    ensures kept { result ≢ 0 → turn.new ≡ turn.old }
{
    match turn_session(session) {
        Some(shown) => {
            *turn = shown;
            DONE
        }
        None => NO_SESSION,
    }
}
