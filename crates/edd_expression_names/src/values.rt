//! What is under conditions, with the meaning of its names.

ghost use Rattle.std.specs.Prelude.{Bool};
ghost use Rattle.edd_name_meanings.specs.TokensIn.{no_tokens, token_of_data, token_of_enumerator, tokens_in_expr};
ghost use Rattle.edd_syntax.specs.declared.reference.Path as path;
ghost use Rattle.edd_syntax.specs.declared.reference.Target.{Target};
ghost use Rattle.edd_syntax.specs.declared.types.Handling as handling;
ghost use Rattle.edd_syntax.specs.Expression as expression;
ghost use Rattle.edd_syntax.specs.Item as item;
ghost use Rattle.edd_syntax.specs.ItemView.{enumerator_of, entry_of, data_item_of, numbered_data_item, numbered_entry};
ghost use Rattle.edd_syntax.specs.NameUses.{attribute_expr_uses, entry_uses, data_uses, no_uses};
ghost use Rattle.edd_syntax.specs.Reference as pure;
ghost use Rattle.edd_syntax.specs.ReferenceOrder.{data_references, entry_references, expr_references, no_references};
ghost use Rattle.edd_syntax.specs.ResolvedTrees.{at_attribute, resolved_data, resolved_entry, resolved_expr, unchanged};
ghost use Rattle.edd_syntax.specs.Text as texts;
ghost use Rattle.edd_syntax.specs.TreeView.{path_of, expr_of, numbered_expr};
ghost use Rattle.edd_syntax.specs.WordsView.{text_of};

use crate::conditionals::ResolveValue;
use crate::exprs::{copy_expr, refer_variable};
use crate::texts::{copy_optional_text, copy_text};
use edd_breaches::Breach;
use edd_name_meanings::directory::Names;
use edd_name_meanings::references::refer;
use edd_syntax::expr::Expr;
use edd_syntax::item::{DataItem, Enumerator, MenuEntry};
use edd_syntax::numbers::Kind;
use edd_syntax::reference::{Path, Target};
use edd_syntax::text::Text;
use edd_syntax::types::Handling;
use std::alloc::AllocError;

impl ResolveValue for Text {
    type Out = Text;

    ghost Before = { texts.Text };

    ghost After = { texts.Text };

    ghost before = { text_of };

    ghost after = { text_of };

    ghost Placed = { texts.Text };

    ghost placed = { text_of };

    ghost paths = { no_references };

    ghost tokens = { no_tokens };

    ghost copied_tokens = { no_tokens };

    ghost uses = { no_uses };

    ghost meant = { λ names. unchanged };

    #[tactic(auto, using(edd_name_meanings::proofs::UseLaws::uses))]
    fn copy<'a>(&'a self, names: &Names, told: &mut Vec<Breach<'a>>) -> Result<Text, AllocError> {
        copy_text(self, names.alloc)
    }
}

impl ResolveValue for Handling {
    type Out = Handling;

    ghost Before = { handling.Handling };

    ghost After = { handling.Handling };

    ghost before = { λ h. h };

    ghost after = { λ h. h };

    ghost Placed = { handling.Handling };

    ghost placed = { λ h. h };

    ghost paths = { no_references };

    ghost tokens = { no_tokens };

    ghost copied_tokens = { no_tokens };

    ghost uses = { no_uses };

    ghost meant = { λ names. unchanged };

    #[tactic(auto, using(edd_name_meanings::proofs::UseLaws::uses))]
    fn copy<'a>(
        &'a self,
        names: &Names,
        told: &mut Vec<Breach<'a>>,
    ) -> Result<Handling, AllocError> {
        Ok(*self)
    }
}

impl ResolveValue for bool {
    type Out = bool;

    ghost Before = { Bool };

    ghost After = { Bool };

    ghost before = { λ b. b };

    ghost after = { λ b. b };

    ghost Placed = { Bool };

    ghost placed = { λ b. b };

    ghost paths = { no_references };

    ghost tokens = { no_tokens };

    ghost copied_tokens = { no_tokens };

    ghost uses = { no_uses };

    ghost meant = { λ names. unchanged };

    #[tactic(auto, using(edd_name_meanings::proofs::UseLaws::uses))]
    fn copy<'a>(&'a self, names: &Names, told: &mut Vec<Breach<'a>>) -> Result<bool, AllocError> {
        Ok(*self)
    }
}

impl ResolveValue for Enumerator {
    type Out = Enumerator;

    ghost Before = { item.Enumerator };

    ghost After = { item.Enumerator };

    ghost before = { enumerator_of };

    ghost after = { enumerator_of };

    ghost Placed = { item.Enumerator };

    ghost placed = { enumerator_of };

    ghost paths = { no_references };

    ghost tokens = { token_of_enumerator };

    ghost copied_tokens = { token_of_enumerator };

    ghost uses = { no_uses };

    ghost meant = { λ names. unchanged };

    #[tactic(auto, using(edd_name_meanings::proofs::UseLaws::uses))]
    fn copy<'a>(
        &'a self,
        names: &Names,
        told: &mut Vec<Breach<'a>>,
    ) -> Result<Enumerator, AllocError> {
        let text = copy_text(&self.text, names.alloc)?;
        let help = copy_optional_text(&self.help, names.alloc)?;
        Ok(Enumerator {
            at: self.at,
            value: self.value,
            text,
            help,
        })
    }
}

impl ResolveValue for Expr<Path> {
    type Out = Expr<Target>;

    ghost Before = { expression.Expr pure.Path };

    ghost After = { expression.Expr Target };

    ghost before = { expr_of path_of };

    ghost after = { numbered_expr };

    ghost Placed = { expression.Expr path.Path };

    ghost placed = { expr_of (λ p. p) };

    ghost paths = { expr_references };

    ghost tokens = { tokens_in_expr };

    ghost copied_tokens = { tokens_in_expr };

    ghost uses = { attribute_expr_uses };

    ghost meant = { λ names. resolved_expr (at_attribute names) };

    #[tactic(auto, using(edd_name_meanings::proofs::UseLaws::uses))]
    fn copy<'a>(
        &'a self,
        names: &Names,
        told: &mut Vec<Breach<'a>>,
    ) -> Result<Expr<Target>, AllocError> {
        copy_expr(self, names, &[], told)
    }
}

impl ResolveValue for MenuEntry<Path> {
    type Out = MenuEntry<Target>;

    ghost Before = { item.MenuEntry pure.Path };

    ghost After = { item.MenuEntry Target };

    ghost before = { entry_of path_of };

    ghost after = { numbered_entry };

    ghost Placed = { item.MenuEntry path.Path };

    ghost placed = { entry_of (λ p. p) };

    ghost paths = { entry_references };

    ghost tokens = { no_tokens };

    ghost copied_tokens = { no_tokens };

    ghost uses = { entry_uses };

    ghost meant = { resolved_entry };

    #[tactic(auto, using(edd_name_meanings::proofs::UseLaws::uses))]
    fn copy<'a>(
        &'a self,
        names: &Names,
        told: &mut Vec<Breach<'a>>,
    ) -> Result<MenuEntry<Target>, AllocError> {
        match self {
            MenuEntry::Text(text) => Ok(MenuEntry::Text(copy_text(text, names.alloc)?)),
            MenuEntry::Reference { to, qualifiers } => {
                let kinds = [Kind::Variable, Kind::Menu, Kind::Collection, Kind::Method];
                let to = refer(names, &[], &kinds, to, told)?;
                Ok(MenuEntry::Reference {
                    to,
                    qualifiers: *qualifiers,
                })
            }
        }
    }
}

impl ResolveValue for DataItem<Path> {
    type Out = DataItem<Target>;

    ghost Before = { item.DataItem pure.Path };

    ghost After = { item.DataItem Target };

    ghost before = { data_item_of path_of };

    ghost after = { numbered_data_item };

    ghost Placed = { item.DataItem path.Path };

    ghost placed = { data_item_of (λ p. p) };

    ghost paths = { data_references };

    ghost tokens = { token_of_data };

    ghost copied_tokens = { token_of_data };

    ghost uses = { data_uses };

    ghost meant = { resolved_data };

    #[tactic(auto, using(edd_name_meanings::proofs::UseLaws::uses))]
    fn copy<'a>(
        &'a self,
        names: &Names,
        told: &mut Vec<Breach<'a>>,
    ) -> Result<DataItem<Target>, AllocError> {
        match self {
            DataItem::Constant { at, value } => Ok(DataItem::Constant {
                at: *at,
                value: *value,
            }),
            DataItem::Variable {
                at,
                variable,
                mask,
                qualifiers,
            } => Ok(DataItem::Variable {
                at: *at,
                variable: refer_variable(names, &[], variable, told)?,
                mask: *mask,
                qualifiers: *qualifiers,
            }),
        }
    }
}
