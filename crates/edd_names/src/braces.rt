//! What is in the braces of types, transactions, collections and arrays, with the meaning of
//! its names.

ghost use Rattle.std.specs.Prelude.{[], ◌∷◌, List, Option, map};
ghost use Rattle.std.specs.List.{flat_map};
ghost use Rattle.edd_name_meanings.specs.TokensIn.{token_of_element, token_of_member, tokens_in_transaction_part, tokens_in_type_part};
ghost use Rattle.edd_syntax.specs.declared.numbers.TokenNo.{TokenNo};
ghost use Rattle.edd_syntax.specs.declared.reference.Path as path;
ghost use Rattle.edd_syntax.specs.declared.reference.Target as target;
ghost use Rattle.edd_syntax.specs.Item as pure;
ghost use Rattle.edd_syntax.specs.Item.{ItemKind};
ghost use Rattle.edd_syntax.specs.ItemView.{item_of, type_part_of, transaction_part_of, array_element_of, member_of, numbered_array_element, numbered_member, numbered_transaction_part, numbered_type_part};
ghost use Rattle.edd_syntax.specs.NameUses.{Use, OfItem, type_part_uses, transaction_part_uses};
ghost use Rattle.edd_syntax.specs.Reference as reference;
ghost use Rattle.edd_syntax.specs.ReferenceOrder.{element_references, member_references, transaction_part_references, type_part_references};
ghost use Rattle.edd_syntax.specs.Resolution.{member_kinds, variable_kinds};
ghost use Rattle.edd_syntax.specs.ResolvedTrees.{Reading, each, resolved_type_part, resolved_transaction_part, resolved_member, resolved_element};
ghost use Rattle.edd_syntax.specs.TreeView.{path_of};
ghost use Rattle.edd_name_meanings.specs.Directory.{description_of, read_by};
ghost use Rattle.edd_name_meanings.specs.Copies.{Copies, Keeps, Told};

use edd_breaches::Breach;
use edd_expression_names::conditionals::{copy_cond, copy_conds};
use edd_expression_names::exprs::refer_variable;
use edd_expression_names::texts::copy_optional_text;
use edd_name_meanings::directory::Names;
use edd_name_meanings::references::refer;
use edd_syntax::item::{ArrayElement, Item, ItemKind, Member, TransactionPart, TypePart};
use edd_syntax::reference::{Path, Target};
use edd_syntax::text::CompactString;
use std::alloc::AllocError;

/// A part of an attribute of an item, which is copied with the meaning of its names.
pub trait ResolvePart {
    type Out: Drop;

    /// What the part stands for, before and after.
    ghost Before: { Type 0 };

    ghost After: { Type 0 };

    ghost before: { Self → Before };

    ghost after: { Self.Out → After };

    /// What the part stands for where references are the paths of the code, and these paths.
    ghost Placed: { Type 0 };

    ghost placed: { Self → Placed };

    ghost paths: { Placed → List path.Path };

    /// The tokens in a part, before and after.
    ghost tokens: { Self → List TokenNo };

    ghost copied_tokens: { Self.Out → List TokenNo };

    /// The uses of names in a part of an item of this kind, and what it is read as.
    ghost uses: { ItemKind → Before → List Use };

    ghost meant: { Reading → ItemKind → Before → Option After };

    /// The part with the meaning of its names.
    fn copy<'a>(
        &'a self,
        item: &Item<Path>,
        names: &Names,
        told: &mut Vec<Breach<'a>>,
    ) -> Result<Self::Out, AllocError>
        ensures told { Told (description_of names.now)
            (uses (item_of path_of item.now).sort (before self.now)) (paths (placed self.now))
            told.old.items told.new.items result }
        ensures sound { Copies (meant (read_by names.now) (item_of path_of item.now).sort
            (before self.now)) after result }
        ensures kept { Keeps (tokens self.now) copied_tokens result };
}

/// The parts of an attribute of an item with the meaning of their names.
pub fn copy_parts<'a, P: ResolvePart>(
    parts: &'a [P],
    item: &Item<Path>,
    names: &Names,
    told: &mut Vec<Breach<'a>>,
) -> Result<Vec<P::Out>, AllocError>
    ensures told { Told (description_of names.now)
        (flat_map (P.uses (item_of path_of item.now).sort) (map P.before parts.now))
        (flat_map P.paths (map P.placed parts.now)) told.old.items told.new.items result }
    ensures sound { Copies (each (P.meant (read_by names.now) (item_of path_of item.now).sort)
        (map P.before parts.now)) (λ t. map P.after t.items) result }
    ensures kept { Keeps (flat_map P.tokens parts.now) (λ t. flat_map P.copied_tokens t.items)
        result }
{
    let mut copies = Vec::with_capacity(names.alloc, parts.len())?;
    for part in parts {
        copies.push(part.copy(item, names, told)?)?;
    }
    Ok(copies)
}

impl ResolvePart for TypePart<Path> {
    type Out = TypePart<Target>;

    ghost Before = { pure.TypePart reference.Path };

    ghost After = { pure.TypePart target.Target };

    ghost before = { type_part_of path_of };

    ghost after = { numbered_type_part };

    ghost Placed = { pure.TypePart path.Path };

    ghost placed = { type_part_of (λ p. p) };

    ghost paths = { type_part_references };

    ghost tokens = { tokens_in_type_part };

    ghost copied_tokens = { tokens_in_type_part };

    ghost uses = { λ sort. type_part_uses };

    ghost meant = { λ names sort. resolved_type_part names };

    #[tactic(auto, using(edd_name_meanings::proofs::UseLaws::uses))]
    fn copy<'a>(
        &'a self,
        _item: &Item<Path>,
        names: &Names,
        told: &mut Vec<Breach<'a>>,
    ) -> Result<TypePart<Target>, AllocError> {
        match self {
            TypePart::OneNumber { at, which, value } => Ok(TypePart::OneNumber {
                at: *at,
                which: *which,
                value: copy_cond(value, names, told)?,
            }),
            TypePart::OneFormat { at, which, format } => Ok(TypePart::OneFormat {
                at: *at,
                which: *which,
                format: copy_cond(format, names, told)?,
            }),
            TypePart::Element(element) => {
                Ok(TypePart::Element(copy_cond(element, names, told)?))
            }
        }
    }
}

impl ResolvePart for TransactionPart<Path> {
    type Out = TransactionPart<Target>;

    ghost Before = { pure.TransactionPart reference.Path };

    ghost After = { pure.TransactionPart target.Target };

    ghost before = { transaction_part_of path_of };

    ghost after = { numbered_transaction_part };

    ghost Placed = { pure.TransactionPart path.Path };

    ghost placed = { transaction_part_of (λ p. p) };

    ghost paths = { transaction_part_references };

    ghost tokens = { tokens_in_transaction_part };

    ghost copied_tokens = { tokens_in_transaction_part };

    ghost uses = { λ sort. transaction_part_uses };

    ghost meant = { λ names sort. resolved_transaction_part names };

    #[tactic(auto, using(edd_name_meanings::proofs::UseLaws::uses))]
    fn copy<'a>(
        &'a self,
        _item: &Item<Path>,
        names: &Names,
        told: &mut Vec<Breach<'a>>,
    ) -> Result<TransactionPart<Target>, AllocError> {
        match self {
            TransactionPart::Request(at, all) => {
                Ok(TransactionPart::Request(*at, copy_conds(all, names, told)?))
            }
            TransactionPart::Reply(at, all) => {
                Ok(TransactionPart::Reply(*at, copy_conds(all, names, told)?))
            }
        }
    }
}

// What a member of an item means: one of a collection is of the kind after OF.
fn refer_member<'a>(
    item: &Item<Path>,
    names: &Names,
    path: &'a Path,
    told: &mut Vec<Breach<'a>>,
) -> Result<Target, AllocError>
    ensures told { Told (description_of names.now)
        (OfItem [] (member_kinds (item_of path_of item.now).sort) (path_of path.now) ∷ [])
        (path.now ∷ []) told.old.items told.new.items result }
    ensures sound { Copies ((read_by names.now).reference []
        (member_kinds (item_of path_of item.now).sort) (path_of path.now)) (λ t. t) result }
{
    match item.sort {
        ItemKind::Collection(of) => refer(names, &[], &[of], path, told),
        ItemKind::Variable
        | ItemKind::Command
        | ItemKind::Menu
        | ItemKind::Method
        | ItemKind::Array => refer(names, &[], &[], path, told),
    }
}

impl ResolvePart for Member<Path> {
    type Out = Member<Target>;

    ghost Before = { pure.Member reference.Path };

    ghost After = { pure.Member target.Target };

    ghost before = { member_of path_of };

    ghost after = { numbered_member };

    ghost Placed = { pure.Member path.Path };

    ghost placed = { member_of (λ p. p) };

    ghost paths = { member_references };

    ghost tokens = { token_of_member };

    ghost copied_tokens = { token_of_member };

    ghost uses = { λ sort m. OfItem [] (member_kinds sort) m.item ∷ [] };

    ghost meant = { λ names sort. resolved_member names (member_kinds sort) };

    #[tactic(auto, using(edd_name_meanings::proofs::UseLaws::uses))]
    fn copy<'a>(
        &'a self,
        item: &Item<Path>,
        names: &Names,
        told: &mut Vec<Breach<'a>>,
    ) -> Result<Member<Target>, AllocError> {
        Ok(Member {
            at: self.at,
            item: refer_member(item, names, &self.item, told)?,
            name: CompactString::new(names.alloc, self.name.as_str())?,
            label: copy_optional_text(&self.label, names.alloc)?,
            help: copy_optional_text(&self.help, names.alloc)?,
        })
    }
}

impl ResolvePart for ArrayElement<Path> {
    type Out = ArrayElement<Target>;

    ghost Before = { pure.ArrayElement reference.Path };

    ghost After = { pure.ArrayElement target.Target };

    ghost before = { array_element_of path_of };

    ghost after = { numbered_array_element };

    ghost Placed = { pure.ArrayElement path.Path };

    ghost placed = { array_element_of (λ p. p) };

    ghost paths = { element_references };

    ghost tokens = { token_of_element };

    ghost copied_tokens = { token_of_element };

    ghost uses = { λ sort e. OfItem [] variable_kinds e.variable ∷ [] };

    ghost meant = { λ names sort. resolved_element names };

    #[tactic(auto, using(edd_name_meanings::proofs::UseLaws::uses))]
    fn copy<'a>(
        &'a self,
        _item: &Item<Path>,
        names: &Names,
        told: &mut Vec<Breach<'a>>,
    ) -> Result<ArrayElement<Target>, AllocError> {
        Ok(ArrayElement {
            at: self.at,
            number: self.number,
            variable: refer_variable(names, &[], &self.variable, told)?,
            label: copy_optional_text(&self.label, names.alloc)?,
            help: copy_optional_text(&self.help, names.alloc)?,
        })
    }
}
