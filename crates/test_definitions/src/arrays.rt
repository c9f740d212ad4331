//! Arrays of variables, whose elements have numbers and no positions.

ghost use Rattle.std.specs.Prelude.{◌≡◌, pos, negsuc, [], ◌∷◌, Some, None, Ok, Err};
ghost use Rattle.edd_syntax.specs.declared.answer.Trap.TheVariants.{NoElement};
ghost use Rattle.edd_syntax.specs.declared.numbers.Attr.TheVariants as attr;
ghost use Rattle.edd_syntax.specs.declared.numbers.ItemNo.TheVariants as item_no;
ghost use Rattle.edd_syntax.specs.Accepted.{refusal};
ghost use Rattle.edd_syntax.specs.Attributes.{Element, Gives, Number, read_attribute};
ghost use Rattle.edd_syntax.specs.Device.{environment};
ghost use Rattle.edd_syntax.specs.Execution.{Ended, Trapped};
ghost use Rattle.edd_syntax.specs.Expression.{Literal};
ghost use Rattle.edd_syntax.specs.ItemGrammar.{ItemHere};
ghost use Rattle.edd_syntax.specs.Refusal.{DuplicateElement};
ghost use Rattle.edd_image.specs.Contents.{element_fields};
ghost use Rattle.edd_image.specs.Layout.{element_row};
ghost use Rattle.test_definitions.specs.Arrays.{array_item, array_tokens, at, of_item, reads, with_array, with_elements};
ghost use Rattle.test_definitions.specs.Methods.{did, minus, ok, send, sent};
ghost use Rattle.test_definitions.specs.Texts.{h, l, says};

/// The element of a number is read, whatever its position is; another number traps.
pub fn elements_by_number()
    ensures rise { (environment (with_array [])).elements
        ≡ record { array = record { 0 = 0 }; number = 5; var = record { 0 = 1 } }
        ∷ record { array = record { 0 = 0 }; number = 9; var = record { 0 = 0 } } ∷ [] }
    ensures ninth_and_fifth { reads (send (at (Literal 9)) ∷ send (at (Literal 5)) ∷ [])
        (ok ∷ ok ∷ [])
        ≡ did (sent (pos 90) ∷ sent (pos 50) ∷ []) [] (pos 90 ∷ pos 50 ∷ pos 0 ∷ []) Ended }
    ensures first_position { reads (send (at (Literal 0)) ∷ []) []
        ≡ did [] [] (pos 90 ∷ pos 50 ∷ pos 0 ∷ []) (Trapped NoElement) }
    ensures second_position { reads (send (at (Literal 1)) ∷ []) []
        ≡ did [] [] (pos 90 ∷ pos 50 ∷ pos 0 ∷ []) (Trapped NoElement) }
    ensures between { reads (send (at (Literal 6)) ∷ []) []
        ≡ did [] [] (pos 90 ∷ pos 50 ∷ pos 0 ∷ []) (Trapped NoElement) }
    ensures below_0 { reads (send (at (minus 9)) ∷ []) []
        ≡ did [] [] (pos 90 ∷ pos 50 ∷ pos 0 ∷ []) (Trapped NoElement) }
{}

/// `VALIDITY IF (a[k]) { FALSE; }` of y, and the elements as they are written.
pub fn elements_in_attributes()
    ensures not_zero { read_attribute (with_array [])
        (of_item (item_no.Variable (record { 0 = 1 })) attr.Validity) (pos 1 ∷ pos 0 ∷ pos 9 ∷ [])
        ≡ Gives (Ok (Number (pos 0) ∷ [])) }
    ensures zero { read_attribute (with_array [])
        (of_item (item_no.Variable (record { 0 = 1 })) attr.Validity) (pos 1 ∷ pos 0 ∷ pos 5 ∷ [])
        ≡ Gives (Ok (Number (pos 1) ∷ [])) }
    ensures no_element { read_attribute (with_array [])
        (of_item (item_no.Variable (record { 0 = 1 })) attr.Validity) (pos 1 ∷ pos 0 ∷ pos 6 ∷ [])
        ≡ Gives (Err NoElement) }
    ensures negative { read_attribute (with_array [])
        (of_item (item_no.Variable (record { 0 = 1 })) attr.Validity)
        (pos 1 ∷ pos 0 ∷ negsuc 8 ∷ []) ≡ Gives (Err NoElement) }
    ensures as_written { read_attribute (with_array [])
        (of_item (item_no.Array (record { 0 = 0 })) attr.Elements) (pos 1 ∷ pos 0 ∷ pos 0 ∷ [])
        ≡ Gives (Ok (Element 9 (record { 0 = 0 }) None None
        ∷ Element 5 (record { 0 = 1 })
        (Some (says l)) (Some (says h)) ∷ [])) }
{}

/// Two elements of one number are refused.
pub fn elements_of_one_number()
    ensures two_of_5 { refusal (with_elements 5 5) ≡ Some DuplicateElement }
    ensures of_5_and_9 { refusal (with_elements 5 9) ≡ None }
{}

/// The tokens of an array, and the row of an element in an image: array, variable and number.
pub fn array_sources()
    ensures tokens { ItemHere array_item array_tokens [] }
    ensures row { element_row
        (record { array = record { 0 = 0x0102 }; number = 0x05060708; var = record { 0 = 0x0304 } })
        ≡ 0x01 ∷ 0x02 ∷ 0x03 ∷ 0x04 ∷ 0x05 ∷ 0x06 ∷ 0x07 ∷ 0x08 ∷ [] }
    ensures fields { element_fields
        (0x01 ∷ 0x02 ∷ 0x03 ∷ 0x04 ∷ 0x05 ∷ 0x06 ∷ 0x07 ∷ 0x08 ∷ []) 0 ≡ record {
          array = record { 0 = 0x0102 };
          number = 0x05060708;
          var = record { 0 = 0x0304 };
        } }
{}
