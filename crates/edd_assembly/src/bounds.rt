//! Laws of the strings and of the rows of a description, for the crates above.

ghost use Rattle.std.specs.Prelude.{◌≡◌, ◌≢◌, ◌*◌, ◌≤◌, List, length, map, sum, Some};
ghost use Rattle.std.specs.List.{AllPairs, Contains};
ghost use Rattle.edd_syntax.specs.declared.numbers.AttrRef.{AttrRef};
ghost use Rattle.edd_syntax.specs.declared.reference.Target.{Target};
ghost use Rattle.edd_syntax.specs.Reference.{Path};
ghost use Rattle.edd_syntax.specs.Item.{Description};
ghost use Rattle.edd_syntax.specs.Resolved.{IsChecked};
ghost use Rattle.edd_syntax.specs.ResolvedTrees.{resolved_unit};
ghost use Rattle.edd_syntax.specs.Rows.{rows};
ghost use Rattle.edd_syntax.specs.Size.{unit_nodes};
ghost use Rattle.edd_syntax.specs.Words.{Words};
ghost use Rattle.edd_syntax.specs.Strings.{different, unit_strings};
ghost use Rattle.edd_assembly.specs.RowContents.{limit_of_row, strings_of_row};

/// Among strings that are all in a list there are no more different ones than the list has, and
/// none is lost among different ones.
pub fn different_strings_count()
    ensures within { (xs ys : List Words) → ((w : Words) → Contains xs w → Contains ys w)
        → length (different xs) ≤ length (different ys) }
    ensures itself { (xs : List Words) → AllPairs (λ s t. s ≢ t) xs → length (different xs)
        ≡ length xs }
{}

/// Each string of a checked description is one of a row's, and what any row holds is a string of
/// the description.
pub fn strings_stand_in_rows()
    ensures in_rows { (unit : Description Target) → ∥ IsChecked unit ∥₁ → (w : Words)
        → Contains (unit_strings unit) w
        → (row : AttrRef) × Contains (rows unit.items) row × Contains (strings_of_row unit row) w }
    ensures of_rows { (unit : Description Target) (row : AttrRef) (w : Words)
        → Contains (strings_of_row unit row) w → Contains (unit_strings unit) w }
{}

/// A description has as many nodes with the meaning of each name in its place, and a checked one at
/// most 524,288.
pub fn nodes_stay()
    ensures same { (unit : Description Path) (resolved : Description Target)
        → resolved_unit unit ≡ Some resolved → unit_nodes resolved ≡ unit_nodes unit }
    ensures few { (unit : Description Target) → ∥ IsChecked unit ∥₁ → unit_nodes unit ≤ 524288 }
{}

/// What the code of each row may amount to, in octets and summed over the rows, is at most 32 for
/// each node of the description.
pub fn nodes_of_rows()
    ensures { (unit : Description Target) → sum (map (λ r. limit_of_row unit r) (rows unit.items))
        ≤ 32 * unit_nodes unit }
{}

/// For a checked description this sum is at most 2^24 octets.
pub fn code_is_short()
    ensures { (unit : Description Target) → ∥ IsChecked unit ∥₁
        → sum (map (λ r. limit_of_row unit r) (rows unit.items)) ≤ 16777216 }
{}
