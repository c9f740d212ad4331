//! Faults that are told, after which a walk goes on.

ghost use Rattle.std.specs.Prelude.{◌≡◌, [], ◌∷◌, IfOk, OnOk};
ghost use Rattle.edd_syntax.specs.declared.reference.Path as path;
ghost use Rattle.edd_syntax.specs.Item.{Description};
ghost use Rattle.edd_syntax.specs.NameUses.{Use};
ghost use Rattle.edd_syntax.specs.Reference as pure;
ghost use Rattle.edd_name_meanings.specs.Copies.{Tells};
ghost use Rattle.edd_name_meanings.specs.Meanings.{IsFaultOf};
ghost use Rattle.edd_name_meanings.specs.StandIns as stand_ins;

use edd_breaches::Breach;
use edd_syntax::numbers::{ItemNo, Kind, VarNo};
use edd_syntax::reference::Target;
use std::alloc::AllocError;

/// What stands for the meaning of a name that has none: an item of the first kind that may be there.
/// The fault is told where the name is, or where a member is that names nothing.
pub fn stand_in(kinds: &[Kind]) -> Target
    ensures { result ≡ stand_ins.stand_in kinds.now }
{
    match kinds.first() {
        Some(kind) => Target::Item(kind.item(0)),
        None => Target::Item(ItemNo::Variable(VarNo(0))),
    }
}

/// The fault of a use goes after those that were told; something stands for what is meant.
pub fn tell<'a>(
    fault: Breach<'a>,
    instead: Target,
    told: &mut Vec<Breach<'a>>,
) -> Result<Target, AllocError>
    ensures told { OnOk result ((unit : Description pure.Path) (u : Use) (p : path.Path)
        → IsFaultOf fault.entry unit u p
        → Tells unit (u ∷ []) (p ∷ []) told.old.items told.new.items) }
    ensures sound { IfOk result (λ t. t ≡ instead) }
{
    told.push(fault)?;
    Ok(instead)
}
