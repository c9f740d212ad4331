//! Conditionals with the meaning of their names.

ghost use Rattle.std.specs.Prelude.{[], ◌∷◌, List, Option, map};
ghost use Rattle.std.specs.List.{flat_map};
ghost use Rattle.edd_syntax.specs.declared.numbers.TokenNo.{TokenNo};
ghost use Rattle.edd_syntax.specs.declared.reference.Path as path;
ghost use Rattle.edd_syntax.specs.Conditional.{conds_from, arms_from};
ghost use Rattle.edd_syntax.specs.ItemView.{cond_of, arm_of, numbered_arm, numbered_cond};
ghost use Rattle.edd_syntax.specs.NameUses.{Use, cond_uses, conds_uses, arms_uses};
ghost use Rattle.edd_syntax.specs.ResolvedTrees.{Reading, at_attribute, resolved_cond, resolved_conds, resolved_arms};
ghost use Rattle.edd_syntax.specs.TreeView.{path_of};
ghost use Rattle.edd_name_meanings.specs.Directory.{description_of, read_by};
ghost use Rattle.edd_expression_names.specs.ResolvedParts.{resolved_arm};
ghost use Rattle.edd_name_meanings.specs.Copies.{Copies, Keeps, Told};
ghost use Rattle.edd_name_meanings.specs.TokensIn.{tokens_in_arm, tokens_in_cond};
ghost use Rattle.edd_name_meanings.specs.PathsIn.{paths_in_arms, paths_in_cond, paths_in_conds};

use crate::exprs::copy_expr;
use edd_breaches::Breach;
use edd_name_meanings::directory::Names;
use edd_syntax::cond::{Arm, Cond};
use edd_syntax::reference::{Path, Target};
use std::alloc::AllocError;

/// A value under conditions, which is copied with the meaning of its names.
pub trait ResolveValue {
    type Out: Drop;

    /// What the value stands for, before and after.
    ghost Before: { Type 0 };

    ghost After: { Type 0 };

    ghost before: { Self → Before };

    ghost after: { Self.Out → After };

    /// What the value stands for where references are the paths of the code, and these paths.
    ghost Placed: { Type 0 };

    ghost placed: { Self → Placed };

    ghost paths: { Placed → List path.Path };

    /// The tokens in a value, before and after.
    ghost tokens: { Self → List TokenNo };

    ghost copied_tokens: { Self.Out → List TokenNo };

    /// The uses of names in a value, and what it is read as.
    ghost uses: { Before → List Use };

    ghost meant: { Reading → Before → Option After };

    /// The value with the meaning of its names.
    fn copy<'a>(
        &'a self,
        names: &Names,
        told: &mut Vec<Breach<'a>>,
    ) -> Result<Self::Out, AllocError>
        ensures told { Told (description_of names.now) (uses (before self.now))
            (paths (placed self.now)) told.old.items told.new.items result }
        ensures sound { Copies (meant (read_by names.now) (before self.now)) after result }
        ensures kept { Keeps (tokens self.now) copied_tokens result };
}

/// A conditional with the meaning of its names.
#[cycle(branches)]
pub fn copy_cond<'a, V: ResolveValue>(
    c: &'a Cond<Path, V>,
    names: &Names,
    told: &mut Vec<Breach<'a>>,
) -> Result<Cond<Target, V::Out>, AllocError>
    ensures told { Told (description_of names.now)
        (cond_uses V.uses (cond_of path_of V.before c.now))
        (paths_in_cond V.placed V.paths c.now) told.old.items told.new.items result }
    ensures sound { Copies (resolved_cond (at_attribute (read_by names.now))
        (V.meant (read_by names.now)) (cond_of path_of V.before c.now)) (numbered_cond V.after)
        result }
    ensures kept { Keeps (tokens_in_cond V.tokens c.now) (tokens_in_cond V.copied_tokens) result }
{
    match c {
        Cond::Value(v) => Ok(Cond::Value(v.copy(names, told)?)),
        Cond::If {
            condition,
            first,
            otherwise,
        } => {
            let condition = copy_expr(condition, names, &[], told)?;
            let first = copy_conds(first, names, told)?;
            let otherwise = copy_conds(otherwise, names, told)?;
            Ok(Cond::If {
                condition,
                first,
                otherwise,
            })
        }
        Cond::Select { on, arms } => {
            let on = copy_expr(on, names, &[], told)?;
            let arms = copy_arms(arms, names, told)?;
            Ok(Cond::Select { on, arms })
        }
    }
}

/// Conditionals with the meaning of their names.
#[cycle(branches)]
pub fn copy_conds<'a, V: ResolveValue>(
    all: &'a [Cond<Path, V>],
    names: &Names,
    told: &mut Vec<Breach<'a>>,
) -> Result<Vec<Cond<Target, V::Out>>, AllocError>
    ensures told { Told (description_of names.now)
        (conds_uses V.uses (conds_from (map (cond_of path_of V.before) all.now)))
        (paths_in_conds V.placed V.paths all.now) told.old.items told.new.items result }
    ensures sound { Copies (resolved_conds (at_attribute (read_by names.now))
        (V.meant (read_by names.now)) (conds_from (map (cond_of path_of V.before) all.now)))
        (λ t. conds_from (map (numbered_cond V.after) t.items)) result }
    ensures kept { Keeps (flat_map (tokens_in_cond V.tokens) all.now)
        (λ t. flat_map (tokens_in_cond V.copied_tokens) t.items) result }
{
    let mut copies = Vec::with_capacity(names.alloc, all.len())?;
    for c in all {
        copies.push(copy_cond(c, names, told)?)?;
    }
    Ok(copies)
}

#[cycle(branches)]
fn copy_arms<'a, V: ResolveValue>(
    arms: &'a [Arm<Path, V>],
    names: &Names,
    told: &mut Vec<Breach<'a>>,
) -> Result<Vec<Arm<Target, V::Out>>, AllocError>
    ensures told { Told (description_of names.now)
        (arms_uses V.uses (arms_from (map (arm_of path_of V.before) arms.now)))
        (paths_in_arms V.placed V.paths arms.now) told.old.items told.new.items result }
    ensures sound { Copies (resolved_arms (at_attribute (read_by names.now))
        (V.meant (read_by names.now)) (arms_from (map (arm_of path_of V.before) arms.now)))
        (λ t. arms_from (map (numbered_arm V.after) t.items)) result }
    ensures kept { Keeps (flat_map (tokens_in_arm V.tokens) arms.now)
        (λ t. flat_map (tokens_in_arm V.copied_tokens) t.items) result }
{
    let mut copies = Vec::with_capacity(names.alloc, arms.len())?;
    for arm in arms {
        copies.push(copy_arm(arm, names, told)?)?;
    }
    Ok(copies)
}

#[cycle(branches)]
fn copy_arm<'a, V: ResolveValue>(
    arm: &'a Arm<Path, V>,
    names: &Names,
    told: &mut Vec<Breach<'a>>,
) -> Result<Arm<Target, V::Out>, AllocError>
    ensures told { Told (description_of names.now)
        (arms_uses V.uses (arms_from (arm_of path_of V.before arm.now ∷ [])))
        (paths_in_arms V.placed V.paths (arm.now ∷ [])) told.old.items told.new.items result }
    ensures sound { Copies (resolved_arm (at_attribute (read_by names.now))
        (V.meant (read_by names.now)) (arm_of path_of V.before arm.now)) (numbered_arm V.after)
        result }
    ensures kept { Keeps (tokens_in_arm V.tokens arm.now) (tokens_in_arm V.copied_tokens) result }
{
    match arm {
        Arm::Case { label, body } => {
            let body = copy_conds(body, names, told)?;
            Ok(Arm::Case {
                label: *label,
                body,
            })
        }
        Arm::Default { at, body } => {
            let body = copy_conds(body, names, told)?;
            Ok(Arm::Default { at: *at, body })
        }
    }
}
