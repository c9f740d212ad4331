//! Where the fields of an image are, as docs/IMAGE.md has them.

ghost use Rattle.std.specs.Prelude.{◌≡◌, [], ◌∷◌, map};
ghost use Rattle.edd_image.specs.declared.versions.Version.TheVariants.{Two};
ghost use Rattle.edd_image.specs.Contents.{contents_in};
ghost use Rattle.edd_image.specs.Fields.{sections_end, total_length};
ghost use Rattle.test_definitions.specs.Layouts.{bytes, code, name_bytes, numbers, places, string_bytes};

/// An image of the second version, in which all counts differ and no section is empty.
pub fn second_version()
    ensures version { (contents_in bytes).version ≡ Two }
    ensures padding { (contents_in bytes).padding ≡ 0 }
    ensures counts { (contents_in bytes).counts ≡ record {
      variables = 3;
      commands = 1;
      menus = 2;
      collections = 4;
      methods = 5;
      arrays = 6;
      strings = 7;
      manufacturer = 11;
      device_type = 12;
      device_revision = 13;
      dd_revision = 14;
    } }
    ensures variables { (contents_in bytes).variables
        ≡ record { type_number = 1; size = 4; padding = 0 }
        ∷ record { type_number = 2; size = 3; padding = 0 }
        ∷ record { type_number = 3; size = 2; padding = 0 } ∷ [] }
    ensures names { (contents_in bytes).names
        ≡ map (λ n. record { span = record { start = n; size = 1 }; padding = 0 }) numbers }
    ensures attributes { (contents_in bytes).attributes
        ≡ record {
          kind = 1;
          attribute = 31;
          item = 2;
          sub = 9;
          padding = 0;
          span = record { start = 0; size = 1 };
        } ∷ record {
          kind = 5;
          attribute = 21;
          item = 4;
          sub = 8;
          padding = 0;
          span = record { start = 1; size = 2 };
        } ∷ [] }
    ensures elements { (contents_in bytes).elements
        ≡ record { array = record { 0 = 5 }; number = 256; var = record { 0 = 2 } } ∷ [] }
    ensures code { (contents_in bytes).code ≡ code }
    ensures strings { (contents_in bytes).strings
        ≡ map (λ n. record { start = n; size = 3 }) places }
    ensures name_bytes { (contents_in bytes).name_bytes ≡ name_bytes }
    ensures string_bytes { (contents_in bytes).string_bytes ≡ string_bytes }
    ensures whole { sections_end bytes ≡ total_length bytes }
{}
