//! The versions of the layout.

ghost use Rattle.std.specs.Prelude.{◌≡◌};
ghost use Rattle.edd_image.specs.Versions.{version_code, header_size};

use crate::header::{EXTENDED_HEADER_LENGTH, HEADER_LENGTH};

/// A version of the layout.
#[derive(Clone, Copy, PartialEq, Eq, Debug)]
pub enum Version {
    One,
    /// With item arrays and abort methods.
    Two,
}

impl Version {
    /// The number that stands for it in the header.
    pub fn number(self) -> u16
        ensures { result ≡ version_code self }
    {
        match self {
            Version::One => 1,
            Version::Two => 2,
        }
    }

    /// How many bytes its header has.
    pub fn header_size(self) -> usize
        ensures { result ≡ header_size self }
    {
        match self {
            Version::One => HEADER_LENGTH,
            Version::Two => EXTENDED_HEADER_LENGTH,
        }
    }
}
