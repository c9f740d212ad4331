//! An image as the numbers that a program in C keeps of it.

ghost use Rattle.std.specs.Prelude.{◌≡◌, ◌≤◌, ◌↔◌, IfErr, IfNone, IfOk, IfSome, IsTrue, OnOk, length};
ghost use Rattle.edd_image.specs.Fields.{header_length};
ghost use Rattle.edd_instructions.specs.Validity.{BreaksFirst, IsValid};
ghost use Rattle.edd_loader.specs.Faults.{rule_of};
ghost use Rattle.edd_embed.specs.Images.{AreOf, numbers_in};

use edd_image::{
    HEADER_LENGTH, attribute_count, code_length, counts, element_count, names_length,
    strings_length, total_length, u16_at,
};
use edd_loader::{Image, LoadFault, load, reopen};
use std::alloc::Global;

/// The numbers in the header of an image: how many bytes it has, its identification, how many rows
/// and bytes its sections have, and how many items of each kind there are. A program in C keeps
/// them beside the bytes, and may read them.
#[repr(C)]
#[derive(Clone, Copy, PartialEq, Eq, Debug)]
pub struct ImageNumbers {
    pub length: u32,
    pub manufacturer: u32,
    pub device_type: u32,
    pub device_revision: u32,
    pub dd_revision: u32,
    pub attribute_rows: u32,
    pub element_rows: u32,
    pub code_length: u32,
    pub names_length: u32,
    pub strings_length: u32,
    pub version: u16,
    pub variables: u16,
    pub commands: u16,
    pub menus: u16,
    pub collections: u16,
    pub methods: u16,
    pub arrays: u16,
    pub strings: u16,
}

// The numbers in the header.
fn numbers_in(bytes: &[u8]) -> ImageNumbers
    requires { header_length ≤ length bytes.now }
    ensures { result ≡ numbers_in bytes.now }
{
    let counts = counts(bytes);
    ImageNumbers {
        length: total_length(bytes),
        manufacturer: counts.manufacturer,
        device_type: counts.device_type,
        device_revision: counts.device_revision,
        dd_revision: counts.dd_revision,
        attribute_rows: attribute_count(bytes),
        element_rows: element_count(bytes),
        code_length: code_length(bytes),
        names_length: names_length(bytes),
        strings_length: strings_length(bytes),
        version: u16_at(bytes, 4),
        variables: counts.variables,
        commands: counts.commands,
        menus: counts.menus,
        collections: counts.collections,
        methods: counts.methods,
        arrays: counts.arrays,
        strings: counts.strings,
    }
}

impl ImageNumbers {
    /// Whether the bytes have a header, are as many as it says, and these are its numbers.
    pub fn are_of(&self, bytes: &[u8]) -> bool
        ensures { IsTrue result ↔ AreOf self.now bytes.now }
    {
        bytes.len() >= HEADER_LENGTH
            && total_length(bytes) as usize == bytes.len()
            && *self == numbers_in(bytes)
    }

    /// The image that `load_numbers` has accepted, if these are its numbers. It takes no memory.
    pub fn image<'b>(&self, bytes: &'b [u8]) -> Option<Image<'b>>
        requires { AreOf self.now bytes.now → IsValid bytes.now }
        ensures sound { IfSome result (λ image. image ≡ bytes.now) }
        ensures accepted { IfSome result (λ image. AreOf self.now bytes.now) }
        ensures refused { IfNone result (¬ AreOf self.now bytes.now) }
    {
        if self.are_of(bytes) {
            Some(reopen(bytes))
        } else {
            None
        }
    }
}

/// The numbers of the image in these bytes, if they are valid, else why they are not. It takes
/// memory as `load` does, and gives it back.
pub fn load_numbers(alloc: Global, bytes: &[u8]) -> Result<ImageNumbers, LoadFault>
    ensures sound { IfOk result (λ numbers. AreOf numbers bytes.now) }
    ensures accepted { OnOk result (IsValid bytes.now) }
    ensures refused { IfErr result (λ fault. IfSome (rule_of fault) (BreaksFirst bytes.now)) }
{
    let image = load(alloc, bytes)?;
    Ok(numbers_in(image.bytes()))
}
