//! Telling of breaches: one more after those that were told.

ghost use Rattle.std.specs.Prelude.{[], ◌∷◌, OnOk};
ghost use Rattle.edd_breaches.specs.Told.{Tells, told_at, refusal_of};

use crate::breach::{Breach, Rule};
use edd_syntax::numbers::TokenNo;
use std::alloc::AllocError;

/// A rule is broken at a token by what an earlier one says, where that is known.
pub fn tell_clash<'a>(
    rule: Rule<'a>,
    at: TokenNo,
    earlier: Option<TokenNo>,
    told: &mut Vec<Breach<'a>>,
) -> Result<(), AllocError>
    ensures told { OnOk result
        (Tells (told_at (refusal_of rule.entry) at ∷ []) told.old.items told.new.items) }
{
    told.push(Breach {
        rule,
        place: Some(at),
        earlier,
    })?;
    Ok(())
}

/// A rule is broken at a token.
pub fn tell<'a>(rule: Rule<'a>, at: TokenNo, told: &mut Vec<Breach<'a>>) -> Result<(), AllocError>
    ensures told { OnOk result
        (Tells (told_at (refusal_of rule.entry) at ∷ []) told.old.items told.new.items) }
{
    tell_clash(rule, at, None, told)
}
