//! Laws of the sections, for the crates above.

ghost use Rattle.std.specs.Prelude.{◌≡◌, ℕ, List, map};
ghost use Rattle.std.specs.List.{All};
ghost use Rattle.edd_syntax.specs.declared.numbers.MethNo.{MethNo};
ghost use Rattle.edd_syntax.specs.declared.reference.Target.{Target};
ghost use Rattle.edd_syntax.specs.declared.words.Words as in_code;
ghost use Rattle.edd_syntax.specs.Resolved.{IsChecked};
ghost use Rattle.edd_syntax.specs.Words.{Words};
ghost use Rattle.edd_syntax.specs.WordsView.{string_of};
ghost use Rattle.edd_syntax.specs.Item.{Description};
ghost use Rattle.edd_syntax.specs.Device.{environment};
ghost use Rattle.edd_instructions.specs.Agreement.{AgreesOnData};
ghost use Rattle.edd_instructions.specs.MethodAgreement.{AgreesOnMethods, IsMethodCode};
ghost use Rattle.edd_image.specs.Contents.{part, contents_of};
ghost use Rattle.edd_image.specs.Layout.{AreSections};
ghost use Rattle.edd_instructions.specs.Reading.{environment_of};
ghost use Rattle.edd_image.specs.Strings.{string_bytes};
ghost use Rattle.edd_instructions.specs.Validity.{IsSound};
ghost use Rattle.edd_assembly.specs.Assembly.{Lowered, names_of, assembled};
ghost use Rattle.edd_assembly.specs.LoweredUnits.{AreUnitsOf, IsBodyCode, IsMethodOf};

/// The names, the strings and the code that the rows of the sections cut are those that were put
/// together, and the types of the variables are the description's.
pub fn sections_are_read()
    ensures names { (unit : Description Target) (lowered : List Lowered) (strings : List Words)
        → map (λ r. part r.span (contents_of (assembled unit lowered strings)).name_bytes)
        (contents_of (assembled unit lowered strings)).names
        ≡ names_of unit.items }
    ensures strings { (unit : Description Target) (lowered : List Lowered) (strings : List Words)
        → map (λ s. part s (contents_of (assembled unit lowered strings)).string_bytes)
        (contents_of (assembled unit lowered strings)).strings
        ≡ map string_bytes strings }
    ensures code { (unit : Description Target) (lowered : List Lowered) (strings : List Words)
        → map (λ r. part r.span (contents_of (assembled unit lowered strings)).code)
        (contents_of (assembled unit lowered strings)).attributes
        ≡ map (λ l. l.code) lowered }
    ensures types { (unit : Description Target) (lowered : List Lowered) (strings : List Words)
        → (environment_of (contents_of (assembled unit lowered strings))).types
        ≡ (environment unit).variables }
{}

/// The sections of a checked description and of its units keep the rules of a valid image on rows,
/// names, strings and units, where they fit an image.
pub fn sections_are_sound()
    ensures { (unit : Description Target) (lowered : List Lowered) (words : List in_code.Words)
        → ∥ IsChecked unit ∥₁ → AreUnitsOf unit (map string_of words) lowered
        → AreSections (assembled unit lowered (map string_of words))
        → IsSound (contents_of (assembled unit lowered (map string_of words))) }
{}

/// The sections of a description and of its units say what the description says: its
/// identification, counts, names and types, and every attribute under all values of a device, where
/// they fit an image.
pub fn sections_agree()
    ensures { (unit : Description Target) (lowered : List Lowered) (words : List in_code.Words)
        → AreUnitsOf unit (map string_of words) lowered
        → AreSections (assembled unit lowered (map string_of words))
        → AgreesOnData unit (contents_of (assembled unit lowered (map string_of words))) }
{}

/// The sections of a checked description and of its units do what its methods do, where the code of
/// each body is that of its method and the sections fit an image: for every method, under all
/// values of a device and all valid answers.
pub fn methods_agree()
    ensures { (unit : Description Target) (lowered : List Lowered) (words : List in_code.Words)
        → ∥ IsChecked unit ∥₁ → AreUnitsOf unit (map string_of words) lowered
        → All (IsMethodOf unit (map string_of words)) lowered
        → AreSections (assembled unit lowered (map string_of words))
        → AgreesOnMethods unit (contents_of (assembled unit lowered (map string_of words))) }
{}

/// The code of a method of a checked description is that of a body: a valid unit with at most 64
/// slots.
pub fn method_code_is_body_code()
    ensures { (unit : Description Target) (strings : List Words) (m : MethNo) (slots : ℕ)
        (code : List ℕ)
        → ∥ IsChecked unit ∥₁ → IsMethodCode unit strings m slots code
        → IsBodyCode unit strings slots code }
{}
