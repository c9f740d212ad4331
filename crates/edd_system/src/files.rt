//! The files of a disk by their names, of which none is replaced that is in use.

ghost use Rattle.std.specs.Prelude.{◌≡◌, [], IfOk, IfSome, OnErr, OnOk};
ghost use Rattle.edd_system.specs.Disks.{HasNoneBeside, Saved};
ghost use Rattle.edd_system.specs.Ways.{with_opened};

use crate::disk::Disk;
use crate::saving;
use crate::way::Identity;
use std::alloc::{AllocError, Global};
use std::io;

/// The files of a disk, and which of them were opened.
#[derive(Drop)]
pub struct DiskFiles<D: Drop> {
    pub disk: D,
    pub opened: Vec<Identity>,
}

// Remembers a file, if it is one.
fn remember(opened: &mut Vec<Identity>, found: Option<Identity>) -> Result<(), AllocError>
    ensures { OnOk result (opened.new.items ≡ with_opened found opened.old.items) }
{
    match found {
        Some(identity) => Ok(opened.push(identity)?),
        None => Ok(()),
    }
}

impl<D: Disk + Drop> DiskFiles<D> {
    /// Those of a disk of which none is open.
    pub fn new(alloc: Global, disk: D) -> DiskFiles<D>
        ensures disk { result.disk ≡ disk }
        ensures none { result.opened.items ≡ [] }
    {
        DiskFiles {
            disk,
            opened: Vec::new(alloc),
        }
    }

    /// Opens a file or a stream to read it, and remembers which file it is.
    pub fn open(&mut self, name: &str) -> io::Result<D::Opened>
        ensures remembered { IfOk result (λ file. IfSome (D.identity file)
            (λ is. self.new.opened.items ≡ with_opened is self.old.opened.items)) }
        ensures kept { self.new.disk ≡ self.old.disk }
    {
        let file = self.disk.open(name)?;
        let found = self.disk.identity_of(&file)?;
        remember(&mut self.opened, found)?;
        Ok(file)
    }

    /// The same of a plain file; anything else is refused.
    pub fn open_plain(&mut self, name: &str) -> io::Result<D::Opened>
        ensures remembered { IfOk result (λ file. IfSome (D.identity file)
            (λ is. self.new.opened.items ≡ with_opened is self.old.opened.items)) }
        ensures kept { self.new.disk ≡ self.old.disk }
    {
        let file = self.disk.open_plain(name)?;
        let found = self.disk.identity_of(&file)?;
        remember(&mut self.opened, found)?;
        Ok(file)
    }

    /// Writes a file as `save` does, but none that was opened.
    pub fn save(&mut self, name: &str, bytes: &[u8]) -> io::Result<()>
        ensures sound { OnOk result (IfSome (D.files self.old.disk)
            (λ files. IfSome (D.standing self.old.disk) (λ standing.
            Saved self.old.opened.items name.now bytes.now standing files (D.files self.new.disk)
            (D.given self.old.disk) (D.given self.new.disk)))) }
        ensures kept { OnErr result (HasNoneBeside (D.files self.old.disk)
            → D.files self.new.disk ≡ D.files self.old.disk) }
        ensures same { self.new.opened ≡ self.old.opened }
    {
        saving::save(&mut self.disk, &self.opened, name, bytes)
    }
}
