//! The names by which a device is tied to its instrument.

ghost use Rattle.std.specs.Prelude.{◌≡◌, IfOk, string_bytes};
ghost use Rattle.edd_device.specs.Names.{command_method, counterpart, is_named, method_named, variable_named};

use edd_loader::Image;
use edd_syntax::numbers::{ItemNo, MethNo, VarNo};
use std::alloc::{AllocError, Global};

/// The variable that holds the code of a device's answer.
pub const RESPONSE_CODE: &str = "response_code";

/// The method that is what a second does to a device.
pub const SECOND: &str = "second";

fn is_named(image: &Image<'_>, name: &str, item: ItemNo) -> bool
    ensures { result ≡ is_named image.now name.now item }
{
    match image.name(item) {
        Some(given) => given == name,
        None => false,
    }
}

/// The first variable of this name.
pub fn variable_named(image: &Image<'_>, name: &str) -> Option<VarNo>
    ensures { result ≡ variable_named image.now name.now }
{
    for number in 0..image.counts().variables {
        if is_named(image, name, ItemNo::Variable(VarNo(number))) {
            return Some(VarNo(number));
        }
    }
    None
}

/// The first method of this name.
pub fn method_named(image: &Image<'_>, name: &str) -> Option<MethNo>
    ensures { result ≡ method_named image.now name.now }
{
    for number in 0..image.counts().methods {
        if is_named(image, name, ItemNo::Method(MethNo(number))) {
            return Some(MethNo(number));
        }
    }
    None
}

/// The device's variable of the name of one of the instrument's, if it has one.
pub fn counterpart(instrument: &Image<'_>, device: &Image<'_>, variable: VarNo) -> Option<VarNo>
    ensures { result ≡ counterpart instrument.now device.now variable }
{
    let name = instrument.name(ItemNo::Variable(variable))?;
    variable_named(device, name)
}

/// The name of the method that is what a transaction does to a device.
pub fn command_method(alloc: Global, number: i32, transaction: i32) -> Result<String, AllocError>
    ensures { IfOk result (λ name. string_bytes name ≡ command_method number transaction) }
{
    format!(in alloc; "command_{number}_{transaction}")
}
