//! The numbers of an image, each read at its place. Places count bytes from 0, and numbers have
//! their highest byte first.

ghost use Rattle.std.specs.Prelude.{◌≡◌, ◌+◌, ◌≤◌, ◌<◌, length, slice_index};
ghost use Rattle.std.specs.Int.{w16, w32};
ghost use Rattle.edd_image.specs.Fields.{number_at};

/// The byte at a place.
pub fn u8_at(bytes: &[u8], place: usize) -> u8
    requires { place < length bytes.now }
    ensures { result ≡ slice_index bytes.now place }
{
    bytes[place]
}

/// The number of two bytes at a place.
#[tactic(auto, unfolding(crate::specs::Fields::number_at))]
pub fn u16_at(bytes: &[u8], place: usize) -> u16
    requires { place + 2 ≤ length bytes.now }
    ensures { result ≡ number_at w16 bytes.now place }
{
    u16::from_be_bytes([bytes[place], bytes[place + 1]])
}

/// The number of four bytes at a place.
#[tactic(auto, unfolding(crate::specs::Fields::number_at))]
pub fn u32_at(bytes: &[u8], place: usize) -> u32
    requires { place + 4 ≤ length bytes.now }
    ensures { result ≡ number_at w32 bytes.now place }
{
    u32::from_be_bytes([
        bytes[place],
        bytes[place + 1],
        bytes[place + 2],
        bytes[place + 3],
    ])
}
