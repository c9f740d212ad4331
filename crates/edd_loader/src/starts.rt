//! The places of the sections, found once for all that is looked up.

ghost use Rattle.std.specs.Prelude.{◌≡◌};
ghost use Rattle.edd_loader.specs.Sections.{AreSectionsOf};
ghost use Rattle.edd_loader.specs.Starts.{starts_in};

use crate::spans::place_in;
use edd_image::{
    attribute_rows_start, code_start, element_rows_start, name_bytes_start, name_rows_start,
    string_bytes_start, string_rows_start,
};

/// Where the sections of an image start after its variable rows, as places among its bytes. Each
/// ends where the next one starts, and the last at the end.
#[derive(Clone, Copy, PartialEq, Eq, Debug)]
pub struct Starts {
    pub name_rows: usize,
    pub attribute_rows: usize,
    pub element_rows: usize,
    pub code: usize,
    pub string_rows: usize,
    pub names: usize,
    pub strings: usize,
}

/// Where the sections start, by the numbers in the header.
pub fn starts_in(bytes: &[u8]) -> Starts
    requires { AreSectionsOf bytes.now }
    ensures { result ≡ starts_in bytes.now }
{
    let element_rows = place_in(bytes, element_rows_start(bytes));
    let code = place_in(bytes, code_start(bytes));
    let string_rows = place_in(bytes, string_rows_start(bytes));
    let names = place_in(bytes, name_bytes_start(bytes));
    let strings = place_in(bytes, string_bytes_start(bytes));
    Starts {
        name_rows: name_rows_start(bytes),
        attribute_rows: attribute_rows_start(bytes),
        element_rows,
        code,
        string_rows,
        names,
        strings,
    }
}
