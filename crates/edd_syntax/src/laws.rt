//! Laws of the meaning of the source.

ghost use Rattle.edd_syntax.specs.EffectLaw.{FittingCallsHaveTheirEffect};
ghost use Rattle.edd_syntax.specs.MoreTurns.{StatementsStay, BodiesStay, RunsStay};
ghost use Rattle.edd_syntax.specs.WrappingLaw.{WrappingKeepsTheNumber};

/// What a statement results in, other than for lack of turns, stays where each loop has more turns.
pub fn statements_stay()
    ensures { StatementsStay }
{}

/// What a whole run results in, other than for lack of turns, stays where each loop has more turns:
/// the requests, the changes, the values, the answers that are left, and the ending.
pub fn runs_stay()
    ensures bodies { BodiesStay }
    ensures methods { RunsStay }
{}

/// A number that is wrapped to a width lies in the range of that width, a multiple of 2 to the
/// power of the width from what it was.
pub fn wrapping_keeps_the_number()
    ensures { WrappingKeepsTheNumber }
{}

/// A builtin has an effect on all arguments that fit its parameters: of a checked description no
/// call is without one.
pub fn fitting_calls_have_their_effect()
    ensures { FittingCallsHaveTheirEffect }
{}
