//! How many slots a method has.

ghost use Rattle.std.specs.Prelude.{◌≡◌, ◌≤◌, ◌∷◌, [], map};
ghost use Rattle.edd_syntax.specs.Statement.{body_from, slots_in, slots_of};
ghost use Rattle.edd_syntax.specs.TreeView.{numbered_part, numbered_stmt};

use edd_syntax::reference::Target;
use edd_syntax::stmt::{Part, Stmt};

/// The declarators of a body, each of which has a slot.
#[cycle(slots)]
pub fn slots_in(body: &[Part<Target>]) -> u16
    requires { slots_in (body_from (map numbered_part body.now)) ≤ 64 }
    ensures { result ≡ slots_in (body_from (map numbered_part body.now)) }
{
    let mut slots = 0;
    for part in body {
        slots += slots_of_part(part);
    }
    slots
}

#[cycle(slots)]
fn slots_of_part(part: &Part<Target>) -> u16
    requires { slots_in (body_from (numbered_part part.now ∷ [])) ≤ 64 }
    ensures { result ≡ slots_in (body_from (numbered_part part.now ∷ [])) }
{
    match part {
        Part::Declare(declarators) => declarators.len() as u16,
        Part::Statement(x) => slots_of(x),
        Part::CaseLabel { .. } | Part::DefaultLabel { .. } => 0,
    }
}

#[cycle(slots)]
#[tactic(auto, unfolding(edd_syntax::specs::Statement::slots_of))]
fn slots_of(x: &Stmt<Target>) -> u16
    requires { slots_of (numbered_stmt x.now) ≤ 64 }
    ensures { result ≡ slots_of (numbered_stmt x.now) }
{
    match x {
        Stmt::Block(parts) => slots_in(parts),
        Stmt::Switch(_, parts) => slots_in(parts),
        Stmt::If(_, body) | Stmt::While(_, body) | Stmt::Do(body, _) | Stmt::For { body, .. } =>
            slots_of(body),
        Stmt::IfElse(_, first, otherwise) => slots_of(first) + slots_of(otherwise),
        Stmt::Empty
        | Stmt::Evaluate(_)
        | Stmt::Break { .. }
        | Stmt::Continue { .. }
        | Stmt::Return => 0,
    }
}
