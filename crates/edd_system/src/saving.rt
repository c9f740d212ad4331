//! Writing bytes under a name.

ghost use Rattle.std.specs.Prelude.{◌≡◌, IfSome, OnErr, OnOk, option_map};
ghost use Rattle.edd_system.specs.Disks.{HasNoneBeside, Saved, replaced, without_beside};

use crate::disk::Disk;
use crate::way::{Identity, Way, choose_way};
use std::io;

// Until all bytes are written, the place keeps what it had. A new file that does not take it is
// removed.
fn save_beside<D: Disk>(disk: &mut D, place: &str, bytes: &[u8]) -> io::Result<()>
    ensures replaced { OnOk result (D.files disk.new ≡ option_map (replaced place.now bytes.now)
        (D.files disk.old)) }
    ensures kept { OnErr result (D.files disk.new ≡ option_map without_beside (D.files disk.old)) }
    ensures given { D.given disk.new ≡ D.given disk.old }
{
    let mut new = disk.create_beside(place)?;
    let mut written = disk.fill(&mut new, bytes);
    if written.is_ok() {
        written = disk.sync(&mut new);
    }
    if written.is_ok() {
        written = disk.put(&mut new, place);
    }
    if written.is_err() {
        disk.remove(new);
    }
    written
}

/// Writes the bytes under the name: into a new file, which then takes the place to which the name
/// leads, or into the stream or device that is there. A file that was opened is refused.
///
/// Where it fails, each plain file is as it was and no new one is left.
pub fn save<D: Disk>(disk: &mut D, opened: &[Identity], name: &str, bytes: &[u8]) -> io::Result<()>
    ensures sound { OnOk result
        (IfSome (D.files disk.old) (λ files. IfSome (D.standing disk.old) (λ standing.
        Saved opened.now name.now bytes.now standing files (D.files disk.new) (D.given disk.old)
        (D.given disk.new)))) }
    ensures kept { OnErr result (HasNoneBeside (D.files disk.old)
        → D.files disk.new ≡ D.files disk.old) }
{
    let place = disk.place_of(name)?;
    match choose_way(disk.look(&place)?, opened) {
        Way::Beside => save_beside(disk, &place, bytes),
        Way::AsItIs => disk.give(&place, bytes),
        Way::Refused => Err(io::Error::from(io::ErrorKind::InvalidInput)),
    }
}
