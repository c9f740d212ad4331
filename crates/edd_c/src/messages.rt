//! The octets of messages, what is taken from them, and which messages carry a variable.

ghost use Rattle.std.specs.Prelude.{◌≡◌, ◌≢◌, ◌⊎◌, ℕ, List, None, Some, length, map};
ghost use Rattle.edd_syntax.specs.Answers.{Change};
ghost use Rattle.edd_syntax.specs.DeviceValues.{AreDeviceValues};
ghost use Rattle.edd_instructions.specs.Validity.{IsValid};
ghost use Rattle.edd_machine.specs.Types.{types_in};
ghost use Rattle.edd_octets.specs.declared.messages.Message.{Message};
ghost use Rattle.edd_embed.specs.declared.octets.MessageFault.{MessageFault};
ghost use Rattle.edd_embed.specs.Images.{AreOf};
ghost use Rattle.edd_embed.specs.Octets.{AreRead, AreWritten, Decodes, Encodes, IsDecodeFault, IsEncodeFault, message_at, message_of, setting_of, told};
ghost use Rattle.edd_embed.specs.Records.{written_over};
ghost use Rattle.edd_embed.specs.Statuses.{message_status};

use edd_embed::statuses::{DONE, NO_ITEM, OTHER_IMAGE, list_status, message_status, told};
use edd_embed::{
    ImageNumbers, MessageFault, PlainMessage, Setting, decode_into, encode_into, message_of,
    reader_at, writer_at,
};
use std::alloc::Global;

/// The octets of a message, and how many they are. That number is written where there is too little
/// room for them as well.
#[unsafe(no_mangle)]
pub extern "C" fn edd_encode(
    alloc: Global,
    bytes: &[u8],
    image: &ImageNumbers,
    message: &PlainMessage,
    values: &[i64],
    octets: &mut [u8],
    given: &mut usize,
) -> u32
    requires { AreOf image.now bytes.now → IsValid bytes.now }
    ensures sound { result ≡ 0 → (m : Message) × (message_of message.now ≡ Some m)
        × ((sent : List ℕ) × Encodes bytes.now m values.now sent × (given.new ≡ length sent)
        × (octets.new ≡ written_over sent octets.old)) }
    ensures room { result ≡ 261 → (m : Message) × (message_of message.now ≡ Some m)
        × IsEncodeFault bytes.now m values.now (length octets.old) (MessageFault.Room given.new) }
    ensures refused { result ≢ 0 → result ≢ 260 → ((result ≡ 203) × (message_of message.now ≡ None))
        ⊎ ((m : Message) × (fault : MessageFault) × (message_of message.now ≡ Some m)
        × (result ≡ message_status fault)
        × IsEncodeFault bytes.now m values.now (length octets.old) fault) }
    ensures accepted { result ≢ 260 → AreOf image.now bytes.now }
    ensures other { result ≡ 260 → ¬ AreOf image.now bytes.now }
    ensures kept { result ≢ 0 → octets.new ≡ octets.old }
    ensures given_kept { result ≢ 0 → result ≢ 261 → given.new ≡ given.old }
{
    let Some(image) = image.image(bytes) else {
        return OTHER_IMAGE;
    };
    let Some(asked) = message_of(*message) else {
        return NO_ITEM;
    };
    match encode_into(alloc, &image, asked, values, octets) {
        Ok(count) => {
            *given = count;
            DONE
        }
        Err(fault) => {
            if let MessageFault::Room(count) = fault {
                *given = count;
            }
            message_status(fault)
        }
    }
}

/// The settings that are taken from the octets of a message, and how many they are. That number is
/// written where there is too little room for them as well; and where an octet differs from its
/// constant its place, and where a variable does not have the bits that came its number.
#[unsafe(no_mangle)]
pub extern "C" fn edd_decode(
    alloc: Global,
    bytes: &[u8],
    image: &ImageNumbers,
    message: &PlainMessage,
    values: &[i64],
    octets: &[u8],
    settings: &mut [Setting],
    given: &mut usize,
) -> u32
    requires { AreOf image.now bytes.now → IsValid bytes.now }
    ensures sound { result ≡ 0 → (m : Message) × (message_of message.now ≡ Some m)
        × ((sets : List Change) × Decodes bytes.now m values.now octets.now sets
        × (given.new ≡ length sets)
        × (settings.new ≡ written_over (map setting_of sets) settings.old)) }
    ensures room { result ≡ 261 → (m : Message) × (message_of message.now ≡ Some m)
        × IsDecodeFault bytes.now m values.now octets.now (length settings.old)
        (MessageFault.Room given.new) }
    ensures refused { result ≢ 0 → result ≢ 260 → ((result ≡ 203) × (message_of message.now ≡ None)
        × (given.new ≡ given.old))
        ⊎ ((m : Message) × (fault : MessageFault) × (message_of message.now ≡ Some m)
        × (result ≡ message_status fault) × (given.new ≡ told fault given.old)
        × IsDecodeFault bytes.now m values.now octets.now (length settings.old) fault) }
    ensures accepted { result ≢ 260 → AreOf image.now bytes.now }
    ensures other { result ≡ 260 → ¬ AreOf image.now bytes.now }
    ensures kept { result ≢ 0 → settings.new ≡ settings.old }
    ensures given_kept { result ≡ 260 → given.new ≡ given.old }
{
    let Some(image) = image.image(bytes) else {
        return OTHER_IMAGE;
    };
    let Some(asked) = message_of(*message) else {
        return NO_ITEM;
    };
    match decode_into(alloc, &image, asked, values, octets, settings) {
        Ok(count) => {
            *given = count;
            DONE
        }
        Err(fault) => {
            *given = told(fault, *given);
            message_status(fault)
        }
    }
}

/// One of the replies with which a host reads a variable, and how many they are. That number is
/// written where there are fewer as well.
#[unsafe(no_mangle)]
pub extern "C" fn edd_reader(
    alloc: Global,
    bytes: &[u8],
    image: &ImageNumbers,
    variable: u16,
    values: &[i64],
    number: usize,
    message: &mut PlainMessage,
    given: &mut usize,
) -> u32
    requires { AreOf image.now bytes.now → IsValid bytes.now }
    ensures sound { result ≡ 0 → (all : List Message) × AreRead bytes.now values.now variable all
        × (message_at all number ≡ Some message.new) × (given.new ≡ length all) }
    ensures none { result ≡ 203 → (all : List Message) × AreRead bytes.now values.now variable all
        × (message_at all number ≡ None) × (given.new ≡ length all) }
    ensures values { result ≡ 204 → ¬ AreDeviceValues (types_in bytes.now) values.now }
    ensures refused { result ≢ 0
        → (result ≡ 203) ⊎ ((result ≡ 204) ⊎ ((result ≡ 150) ⊎ (result ≡ 260))) }
    ensures accepted { result ≢ 260 → AreOf image.now bytes.now }
    ensures other { result ≡ 260 → ¬ AreOf image.now bytes.now }
    ensures kept { result ≢ 0 → message.new ≡ message.old }
    ensures given_kept { result ≢ 0 → result ≢ 203 → given.new ≡ given.old }
{
    let Some(image) = image.image(bytes) else {
        return OTHER_IMAGE;
    };
    match reader_at(alloc, &image, variable, values, number) {
        Ok(found) => {
            *given = found.count;
            match found.message {
                Some(reader) => {
                    *message = reader;
                    DONE
                }
                None => NO_ITEM,
            }
        }
        Err(fault) => list_status(fault),
    }
}

/// One of the requests with which a host sets a variable, and how many they are. That number is
/// written where there are fewer as well.
#[unsafe(no_mangle)]
pub extern "C" fn edd_writer(
    alloc: Global,
    bytes: &[u8],
    image: &ImageNumbers,
    variable: u16,
    values: &[i64],
    number: usize,
    message: &mut PlainMessage,
    given: &mut usize,
) -> u32
    requires { AreOf image.now bytes.now → IsValid bytes.now }
    ensures sound { result ≡ 0 → (all : List Message) × AreWritten bytes.now values.now variable all
        × (message_at all number ≡ Some message.new) × (given.new ≡ length all) }
    ensures none { result ≡ 203 → (all : List Message)
        × AreWritten bytes.now values.now variable all
        × (message_at all number ≡ None) × (given.new ≡ length all) }
    ensures values { result ≡ 204 → ¬ AreDeviceValues (types_in bytes.now) values.now }
    ensures refused { result ≢ 0
        → (result ≡ 203) ⊎ ((result ≡ 204) ⊎ ((result ≡ 150) ⊎ (result ≡ 260))) }
    ensures accepted { result ≢ 260 → AreOf image.now bytes.now }
    ensures other { result ≡ 260 → ¬ AreOf image.now bytes.now }
    ensures kept { result ≢ 0 → message.new ≡ message.old }
    ensures given_kept { result ≢ 0 → result ≢ 203 → given.new ≡ given.old }
{
    let Some(image) = image.image(bytes) else {
        return OTHER_IMAGE;
    };
    match writer_at(alloc, &image, variable, values, number) {
        Ok(found) => {
            *given = found.count;
            match found.message {
                Some(writer) => {
                    *message = writer;
                    DONE
                }
                None => NO_ITEM,
            }
        }
        Err(fault) => list_status(fault),
    }
}
