//! A law of sessions, for their callers.

ghost use Rattle.std.specs.Prelude.{ℕ, ℤ, List};
ghost use Rattle.edd_syntax.specs.DeviceValues.{AreDeviceValues};
ghost use Rattle.edd_machine.specs.Types.{types_in};
ghost use Rattle.edd_embed.specs.declared.sessions.PlainSession.{PlainSession};
ghost use Rattle.edd_embed.specs.Sessions.{IsSession};

/// A session is one under any values of a device of its image, so that a program may change them
/// between two calls.
pub fn sessions_are_of_any_values()
    ensures { (b : List ℕ) (p : PlainSession) (values other : List ℤ) → IsSession b p values
        → AreDeviceValues (types_in b) other → IsSession b p other }
{}
