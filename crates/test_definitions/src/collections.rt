//! What names of members mean.

ghost use Rattle.std.specs.Prelude.{◌≡◌, [], ◌∷◌, Some, None};
ghost use Rattle.edd_syntax.specs.declared.numbers.ItemNo.TheVariants.{Collection, Menu, Variable};
ghost use Rattle.edd_syntax.specs.declared.reference.Target.TheVariants.{Item};
ghost use Rattle.edd_syntax.specs.Resolution.{entry_kinds, item_meant, variable_kinds};
ghost use Rattle.test_definitions.specs.Collections.{a, b, c, d, m, path, v, with_collections};

/// A path goes from a collection to its member, and on where that is a collection. A member that is not
/// there, and an item of another kind than the place wants, mean nothing.
pub fn members_of_members()
    ensures variable { item_meant with_collections entry_kinds (path v [])
        ≡ Some (Item (Variable (record { 0 = 0 }))) }
    ensures member { item_meant with_collections entry_kinds (path c (a ∷ []))
        ≡ Some (Item (Menu (record { 0 = 1 }))) }
    ensures collection { item_meant with_collections entry_kinds (path d (b ∷ []))
        ≡ Some (Item (Collection (record { 0 = 0 }))) }
    ensures further { item_meant with_collections entry_kinds
        (path d (b ∷ a ∷ []))
        ≡ Some (Item (Menu (record { 0 = 1 }))) }
    ensures no_member { item_meant with_collections entry_kinds (path d (a ∷ []))
        ≡ None }
    ensures no_collection { item_meant with_collections entry_kinds
        (path m (a ∷ [])) ≡ None }
    ensures other_kind { item_meant with_collections variable_kinds
        (path c (a ∷ [])) ≡ None }
{}
