//! Sittings at a communicator over a compiled image.

ghost use Rattle.std.specs.Prelude.{ℕ, ℤ, List, []};
ghost use Rattle.edd_syntax.specs.Device.{environment};
ghost use Rattle.edd_image.specs.Fields.{counts_in};
ghost use Rattle.edd_machine.specs.Types.{types_in};
ghost use Rattle.edd_syntax.specs.DeviceValues.{AreDeviceValues};
ghost use Rattle.edd_panel.specs.Sittings.{AreExplained, IsSitting, Step};
ghost use Rattle.edd_panel.specs.Standing.{opened};
ghost use Rattle.edd_compiler.specs.Images.{IsImageOf};
ghost use Rattle.edd_promise.specs.Meant.{meant_by};

use edd_panel::sittings_are_explained;

/// In every sitting over what `compile` gave, values change as the unit says: by a method that ran,
/// or by an edit that the types and attributes of the unit allow, of a variable that the menus of the
/// unit offer, as the values stood then, and so on the whole way from the top.
pub fn compiled_sittings_are_explained()
    ensures { (text b : List ℕ) (is : IsImageOf text b) (values : List ℤ) (steps : List Step)
        → AreDeviceValues (types_in b) values → IsSitting (types_in b) (opened b values) steps
        → AreExplained (counts_in b) (environment is.accepted.resolved).variables
        (meant_by is.accepted.resolved b) [] (opened b values) steps }
{
    sittings_are_explained();
}
