//! What decides on the edits of a variable.

ghost use Rattle.std.specs.Prelude.{◌≡◌, IfOk};
ghost use Rattle.edd_syntax.specs.DeviceValues.{AreDeviceValues};
ghost use Rattle.edd_machine.specs.Types.{types_in};
ghost use Rattle.edd_panel.specs.Edits.{AreRules, of_variable};
ghost use Rattle.edd_panel.specs.Found.{rules_of};

use crate::found::{Found, read};
use edd_image::VarKind;
use edd_loader::Image;
use edd_machine::Values;
use edd_syntax::numbers::{Attr, AttrRef, ItemNo, VarNo};
use std::alloc::{AllocError, Global};

/// The type of a variable, if there is such a variable, and what is read of its attributes that decide on edits.
#[derive(Drop)]
pub struct EditRules {
    pub kind: Option<VarKind>,
    pub handling: Found,
    pub lowest: Found,
    pub highest: Found,
    pub enumerators: Found,
}

/// An attribute of a variable.
pub fn of_variable(variable: VarNo, attr: Attr) -> AttrRef
    ensures { result ≡ of_variable variable attr }
{
    AttrRef {
        item: ItemNo::Variable(variable),
        attr,
        sub: 0,
    }
}

/// The rules of a variable under values of a device.
pub fn rules_of(
    alloc: Global,
    image: &Image<'_>,
    values: &Values,
    variable: VarNo,
) -> Result<EditRules, AllocError>
    requires { AreDeviceValues (types_in image.now) values.now.numbers.items }
    ensures { IfOk result (λ rules. AreRules image.now values.now.numbers.items variable
        (rules_of rules)) }
{
    let handling = read(alloc, image, of_variable(variable, Attr::Handling), values)?;
    let lowest = read(alloc, image, of_variable(variable, Attr::MinValue), values)?;
    let highest = read(alloc, image, of_variable(variable, Attr::MaxValue), values)?;
    let enumerators = read(
        alloc,
        image,
        of_variable(variable, Attr::Enumerators),
        values,
    )?;
    Ok(EditRules {
        kind: image.variable(variable),
        handling,
        lowest,
        highest,
        enumerators,
    })
}
