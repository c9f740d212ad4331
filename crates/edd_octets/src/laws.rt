//! Laws of octets, for their callers.

ghost use Rattle.std.specs.Prelude.{◌≡◌, ℕ, ℤ, List, None, length};
ghost use Rattle.std.specs.Int.{bit_at};
ghost use Rattle.edd_syntax.specs.Answers.{Change, sets_fault, values_set};
ghost use Rattle.edd_syntax.specs.declared.numbers.VarNo.{VarNo};
ghost use Rattle.edd_syntax.specs.DeviceValues.{AreDeviceValues, VariableType};
ghost use Rattle.edd_instructions.specs.Validity.{IsValid};
ghost use Rattle.edd_machine.specs.Types.{types_in};
ghost use Rattle.edd_octets.specs.declared.messages.Message.{Message};
ghost use Rattle.edd_octets.specs.Arrival.{Arrives, bits_under, names};
ghost use Rattle.edd_octets.specs.Decoding.{received};
ghost use Rattle.edd_octets.specs.Encoding.{encoded};
ghost use Rattle.edd_octets.specs.Fields.{Field, length_of};
ghost use Rattle.edd_octets.specs.Messages.{HasFields, IsDecoded};

/// Who divides a message as its sender does takes from its octets the sender's bits of each
/// variable that the message has and that is kept, and leaves all other bits as they were.
pub fn messages_arrive()
    ensures { (b : List ℕ) (message : Message) (sender receiver : List ℤ) (fields : List Field)
        → IsValid b → AreDeviceValues (types_in b) sender → AreDeviceValues (types_in b) receiver
        → HasFields b message receiver fields
        → (sets : List Change)
        × IsDecoded b message receiver (encoded (types_in b) sender fields) sets
        × Arrives (types_in b) sender receiver (values_set receiver sets)
        (received fields (encoded (types_in b) sender fields)) }
{}

/// How many octets a message has, whatever the values are.
pub fn lengths_are_known()
    ensures { (types : List VariableType) (values : List ℤ) (fields : List Field)
        → length (encoded types values fields) ≡ length_of fields }
{}

/// The same octets are of the same bits.
pub fn octets_tell_bits()
    ensures { (b : List ℕ) (message : Message) (one other : List ℤ) (fields : List Field)
        → IsValid b → AreDeviceValues (types_in b) one → AreDeviceValues (types_in b) other
        → HasFields b message one fields
        → encoded (types_in b) one fields ≡ encoded (types_in b) other fields → (v : VarNo)
        (i : ℕ) → bit_at (names (received fields (encoded (types_in b) one fields)) v) i ≡ 1
        → bit_at (bits_under (types_in b) one v) i ≡ bit_at (bits_under (types_in b) other v) i }
{}

/// What is decoded can be set, by the answer of a session too: each set names a variable of the
/// image, and its value is in the range of that variable.
pub fn sets_can_be_made()
    ensures { (b : List ℕ) (message : Message) (values : List ℤ) (octets : List ℕ)
        (sets : List Change) → IsValid b → AreDeviceValues (types_in b) values
        → IsDecoded b message values octets sets → sets_fault (types_in b) sets ≡ None }
{}
