//! The nodes of conditionals, by the kind of value under their conditions.

ghost use Rattle.std.specs.Prelude.{◌≡◌, ◌-◌};
ghost use Rattle.edd_syntax.specs.ItemView.{cond_of, conds_of, enumerator_of, entry_of, data_item_of};
ghost use Rattle.edd_syntax.specs.Size.{nodes, cond_nodes, conds_nodes, leaf};
ghost use Rattle.edd_syntax.specs.TreeView.{path_of, expr_of};
ghost use Rattle.edd_syntax.specs.WordsView.{text_of};

use crate::conditionals::{spend_cond, spend_conds};
use edd_syntax::cond::Cond;
use edd_syntax::expr::Expr;
use edd_syntax::item::{DataItem, Enumerator, MenuEntry};
use edd_syntax::reference::Path;
use edd_syntax::text::Text;

/// What is left after the nodes of a text under conditions.
pub fn spend_text(c: &Cond<Path, Text>, budget: u32) -> u32
    ensures { result ≡ budget - cond_nodes leaf (cond_of path_of text_of c.now) }
{
    spend_cond(c, budget)
}

/// What is left after the nodes of an expression under conditions.
pub fn spend_value(c: &Cond<Path, Expr<Path>>, budget: u32) -> u32
    ensures { result ≡ budget - cond_nodes nodes (cond_of path_of (expr_of path_of) c.now) }
{
    spend_cond(c, budget)
}

/// What is left after the nodes of an element of a type's list under conditions.
pub fn spend_enumerator(c: &Cond<Path, Enumerator>, budget: u32) -> u32
    ensures { result ≡ budget - cond_nodes leaf (cond_of path_of enumerator_of c.now) }
{
    spend_cond(c, budget)
}

/// What is left after the nodes of the entries of a menu.
pub fn spend_entries(all: &[Cond<Path, MenuEntry<Path>>], budget: u32) -> u32
    ensures { result ≡ budget -
        (conds_nodes leaf (conds_of path_of (entry_of path_of) all.now)) }
{
    spend_conds(all, budget)
}

/// What is left after the nodes of data items.
pub fn spend_data(all: &[Cond<Path, DataItem<Path>>], budget: u32) -> u32
    ensures { result ≡ budget -
        (conds_nodes leaf (conds_of path_of (data_item_of path_of) all.now)) }
{
    spend_conds(all, budget)
}
