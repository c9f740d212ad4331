//! Places and parts of the bytes.

ghost use Rattle.std.specs.Prelude.{◌≡◌, ◌+◌, ◌≤◌, length};
ghost use Rattle.edd_image.specs.Contents.{part};

/// A place inside the bytes in the width of their length, 32 bits or 64, which loses nothing.
pub fn place_in(bytes: &[u8], place: u64) -> usize
    requires { place ≤ length bytes.now }
    ensures { result ≡ place }
{
    place as usize
}

/// The `size` bytes from `start` on.
pub fn part(bytes: &[u8], start: usize, size: usize) -> &[u8]
    requires { start + size ≤ length bytes.now }
    ensures { result.now ≡ part (record { start = start; size = size }) bytes.now }
{
    let (_, behind) = bytes.split_at(start);
    let (found, _) = behind.split_at(size);
    found
}
