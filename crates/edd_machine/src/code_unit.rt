//! Where the code of a unit is.

ghost use Rattle.std.specs.Prelude.{◌≡◌, ◌+◌, ◌≤◌, length};
ghost use Rattle.edd_machine.specs.Running.{code_at};

use edd_instructions::Sort;

/// The unit of an attribute row: its sort, the number of the item whose unit it is, its number of
/// slots, and the place and the number of the bytes of its code among those of the image.
#[derive(Clone, Copy, PartialEq, Eq, Debug)]
pub struct CodeUnit {
    pub sort: Sort,
    /// The number of the item among those of its kind: of a method for a body.
    pub item: u16,
    pub slots: u16,
    pub start: usize,
    pub size: usize,
}

/// The code of a unit.
pub fn code_of(bytes: &[u8], unit: CodeUnit) -> &[u8]
    requires { unit.start + unit.size ≤ length bytes.now }
    ensures { result.now ≡ code_at bytes.now unit }
{
    let (_, behind) = bytes.split_at(unit.start);
    let (code, _) = behind.split_at(unit.size);
    code
}
