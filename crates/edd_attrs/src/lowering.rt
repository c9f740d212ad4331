//! The code of trees.

ghost use Rattle.std.specs.Prelude.{◌≡◌, [], IfOk, IsErrOf, IsTrue, List, OnOk, map, option_map};
ghost use Rattle.std.specs.List.{list_all};
ghost use Rattle.edd_syntax.specs.Attributes as source;
ghost use Rattle.edd_syntax.specs.ItemView.{numbered_type_part};
ghost use Rattle.edd_syntax.specs.SubsetRules.{values_of};
ghost use Rattle.edd_syntax.specs.Words.{Words};
ghost use Rattle.edd_code.specs.Tables.{Grows, Overflows};
ghost use Rattle.edd_attrs.specs.Kept.{is_kept_row, is_kept_tree};
ghost use Rattle.edd_code.specs.Written.{WritesBlock};
ghost use Rattle.edd_attrs.specs.Lowered.{LowersTree, OverflowsTree};
ghost use Rattle.edd_attrs.specs.Records.{kept_enumerator};
ghost use Rattle.edd_attrs.specs.Sizes.{tree_strings};
ghost use Rattle.edd_attrs.specs.TreeBlocks.{Giving, IsCondsBlock, IsTreeBlock, elements};
ghost use Rattle.edd_attrs.specs.Trees as trees;
ghost use Rattle.edd_attrs.specs.Views as views;
ghost use Rattle.edd_attrs.specs.Writing.{WritesPart, conds_strings, element_strings, enumerator_strings, is_kept_part};

use crate::conditions::{write_cond, write_conds};
use crate::elements::write_number;
use crate::lists::write_all;
use crate::trees::Tree;
use edd_code::{LowerFault, put};
use edd_instructions::{Emitter, Instruction};
use edd_strings::Table;
use edd_syntax::item::TypePart;
use edd_syntax::reference::Target;
use edd_syntax::types::Operation;
use std::alloc::{AllocError, Global};

/// How many bytes most units take at most, those of a list without its elements.
const USUAL_LENGTH: usize = 32;

/// How many bytes most elements take at most.
const ELEMENT_LENGTH: usize = 12;

// For how many bytes there is to be room at first. More elements, or longer ones, take more.
fn usual_length(tree: Option<Tree>) -> usize {
    let elements = match tree {
        Some(Tree::Enumerators(parts)) => parts.len(),
        Some(Tree::Data(all)) => all.len(),
        Some(Tree::ResponseCodes(codes)) => codes.len(),
        Some(Tree::Items(entries)) => entries.len(),
        Some(Tree::Members(members)) => members.len(),
        Some(Tree::Elements(elements)) => elements.len(),
        _ => 0,
    };
    elements
        .saturating_mul(ELEMENT_LENGTH)
        .saturating_add(USUAL_LENGTH)
}

fn operation_number(operation: Operation) -> u32
    ensures { result ≡ source.operation_number operation }
{
    match operation {
        Operation::Read => 1,
        Operation::Write => 2,
        Operation::Command => 3,
    }
}

// The number of a transaction, which may have none.
#[tactic(auto, unfolding(crate::specs::TreeBlocks::IsTreeBlock))]
fn write_optional_number(code: &mut Emitter, number: Option<u32>) -> Result<(), AllocError>
    ensures { OnOk result ((table : List Words)
        → WritesBlock table code.old []
        (λ numbered b. IsTreeBlock numbered (trees.Transaction number) b) table code.new) }
{
    match number {
        None => Ok(()),
        Some(number) => write_number(code, number),
    }
}

// The code of a part of a type, which gives something where it is an element of the type's list.
#[tactic(auto, using(edd_code::proofs::Growing::no_growth))]
fn write_part(
    alloc: Global,
    code: &mut Emitter,
    table: &mut Table,
    part: &TypePart<Target>,
) -> Result<(), LowerFault>
    requires { IsTrue (is_kept_part (numbered_type_part part.now)) }
    ensures sound { OnOk result (WritesPart table.old code.old (numbered_type_part part.now)
        table.new code.new) }
    ensures grows { Grows table.old table.new }
    ensures refused { IsErrOf result LowerFault.TooMany
        → Overflows table.old (element_strings (numbered_type_part part.now)) }
{
    match part {
        TypePart::Element(element) => write_cond(alloc, code, table, element),
        _ => Ok(()),
    }
}

fn write_parts(
    alloc: Global,
    code: &mut Emitter,
    table: &mut Table,
    parts: &[TypePart<Target>],
) -> Result<(), LowerFault>
    requires { IsTrue (list_all kept_enumerator
        (values_of (elements (map numbered_type_part parts.now)))) }
    ensures sound { OnOk result
        (WritesBlock table.old code.old
        (conds_strings enumerator_strings (elements (map numbered_type_part parts.now)))
        (λ numbered b. IsCondsBlock (Giving numbered source.enumerator)
        (elements (map numbered_type_part parts.now)) b)
        table.new code.new) }
    ensures grows { Grows table.old table.new }
    ensures refused { IsErrOf result LowerFault.TooMany
        → Overflows table.old (conds_strings enumerator_strings
        (elements (map numbered_type_part parts.now))) }
{
    for part in parts {
        write_part(alloc, code, table, part)?;
    }
    Ok(())
}

// The code that gives a tree's records.
#[tactic(auto, unfolding(crate::specs::Kept::is_kept_tree, crate::specs::Sizes::tree_strings, crate::specs::TreeBlocks::IsTreeBlock))]
fn write_tree(
    alloc: Global,
    code: &mut Emitter,
    table: &mut Table,
    tree: Tree,
) -> Result<(), LowerFault>
    requires { IsTrue (is_kept_tree (views.tree_of tree)) }
    ensures sound { OnOk result
        (WritesBlock table.old code.old (tree_strings (views.tree_of tree.entry))
        (λ numbered b. IsTreeBlock numbered (views.tree_of tree.entry) b) table.new code.new) }
    ensures grows { Grows table.old table.new }
    ensures refused { IsErrOf result LowerFault.TooMany
        → Overflows table.old (tree_strings (views.tree_of tree.entry)) }
{
    match tree {
        Tree::Texts(c) => write_cond(alloc, code, table, c),
        Tree::Class(names) => write_all(alloc, code, table, names),
        Tree::Handling(c) => write_cond(alloc, code, table, c),
        Tree::Validity(c) => write_cond(alloc, code, table, c),
        Tree::Expressions(c) => write_cond(alloc, code, table, c),
        Tree::Enumerators(parts) => write_parts(alloc, code, table, parts),
        Tree::Number(number) => Ok(write_number(code, number)?),
        Tree::Operation(operation) => Ok(write_number(code, operation_number(operation))?),
        Tree::Transaction(number) => Ok(write_optional_number(code, number)?),
        Tree::Data(all) => write_conds(alloc, code, table, all),
        Tree::ResponseCodes(codes) => write_all(alloc, code, table, codes),
        Tree::Items(entries) => write_conds(alloc, code, table, entries),
        Tree::Members(members) => write_all(alloc, code, table, members),
        Tree::Elements(elements) => write_all(alloc, code, table, elements),
    }
}

/// The code of a tree. A tree that isn't there gives nothing.
pub fn lower_tree(
    alloc: Global,
    table: &mut Table,
    tree: Option<Tree>,
) -> Result<Vec<u8>, LowerFault>
    requires { IsTrue (is_kept_row (option_map views.tree_of tree)) }
    ensures sound { IfOk result (λ code. LowersTree table.old (option_map views.tree_of tree.entry)
        table.new code.items) }
    ensures grows { Grows table.old table.new }
    ensures refused { IsErrOf result LowerFault.TooMany
        → OverflowsTree table.old (option_map views.tree_of tree.entry) }
{
    let mut code = Emitter::with_capacity(alloc, usual_length(tree))?;
    if let Some(tree) = tree {
        write_tree(alloc, &mut code, table, tree)?;
    }
    put(&mut code, Instruction::End)?;
    Ok(code.finish())
}
