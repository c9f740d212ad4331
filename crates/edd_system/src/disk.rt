//! What a disk does, as far as the writing of a file asks for it.

ghost use Rattle.std.specs.Prelude.{◌≡◌, ℕ, List, [], ◌++◌, Option, None, IfOk, IfSome, OnErr, OnOk, option_map, string_bytes};
ghost use Rattle.edd_system.specs.declared.way.Standing.{Standing};
ghost use Rattle.edd_system.specs.declared.way.Identity.{Identity};
ghost use Rattle.edd_system.specs.Disks.{PlainFiles, with_beside, without_beside, synced, moved};

use crate::way::{Identity, Standing};
use std::io;
use std::io::Read;

/// A disk with its links, plain files, streams and devices. What is said of it holds where it says
/// what it has: a disk in memory can, and the system's says nothing.
pub trait Disk {
    /// A new file, which has no place yet.
    type New: Drop;

    /// A file that is open, or a stream.
    type Opened: Read + Drop;

    /// Its plain files.
    ghost files: { Self → Option PlainFiles } = { λ _. None };

    /// What is at each place.
    ghost standing: { Self → Option (List ℕ → Standing) } = { λ _. None };

    /// What its streams and devices were given.
    ghost given: { Self → Option (List ℕ) } = { λ _. None };

    /// Which file an open one is, or that it is none, where that is said.
    ghost identity: { Self.Opened → Option (Option Identity) } = { λ _. None };

    /// Opens a file or a stream to read it.
    fn open(&self, name: &str) -> io::Result<Self::Opened>;

    /// Opens a plain file, and nothing that gives bytes without an end or waits, as a pipe.
    fn open_plain(&self, name: &str) -> io::Result<Self::Opened>;

    /// Which file it is; a stream without a name is none.
    fn identity_of(&self, opened: &Self::Opened) -> io::Result<Option<Identity>>
        ensures { IfOk result (λ found. IfSome (identity opened.now) (λ is. found ≡ is)) };

    /// The place to which a name leads.
    fn place_of(&self, name: &str) -> io::Result<String>
        ensures { IfOk result (λ place. IfSome (files self.now) (λ f. string_bytes place
            ≡ f.place name.now)) };

    /// What is at a place, if it may be written.
    fn look(&self, place: &str) -> io::Result<Standing>
        ensures { IfOk result (λ found. IfSome (standing self.now) (λ s. found ≡ s place.now)) };

    /// Makes an empty file beside the place.
    fn create_beside(&mut self, place: &str) -> io::Result<Self::New>
        ensures made { OnOk result (files self.new ≡ option_map (with_beside []) (files self.old)) }
        ensures kept { option_map without_beside (files self.new)
            ≡ option_map without_beside (files self.old) }
        ensures none { OnErr result (files self.new ≡ option_map without_beside (files self.old)) }
        ensures given { given self.new ≡ given self.old };

    /// Writes all bytes of the new file.
    fn fill(&mut self, new: &mut Self::New, bytes: &[u8]) -> io::Result<()>
        ensures filled { OnOk result (files self.new ≡ option_map (with_beside bytes.now)
            (files self.old)) }
        ensures kept { option_map without_beside (files self.new)
            ≡ option_map without_beside (files self.old) }
        ensures given { given self.new ≡ given self.old };

    /// Has the bytes of the new file outlast a loss of power.
    fn sync(&mut self, new: &mut Self::New) -> io::Result<()>
        ensures synced { OnOk result (files self.new ≡ option_map synced (files self.old)) }
        ensures kept { option_map without_beside (files self.new)
            ≡ option_map without_beside (files self.old) }
        ensures given { given self.new ≡ given self.old };

    /// Gives the place to the new file, in one step. What of its bytes need not last may be lost.
    fn put(&mut self, new: &mut Self::New, place: &str) -> io::Result<()>
        ensures moved { OnOk result
            (files self.new ≡ option_map (moved place.now) (files self.old)) }
        ensures kept { OnErr result (files self.new ≡ files self.old) }
        ensures given { given self.new ≡ given self.old };

    /// Removes the new file.
    fn remove(&mut self, new: Self::New)
        ensures removed { files self.new ≡ option_map without_beside (files self.old) }
        ensures given { given self.new ≡ given self.old };

    /// Writes to the stream or device at the place.
    fn give(&mut self, place: &str, bytes: &[u8]) -> io::Result<()>
        ensures given { OnOk result (given self.new ≡ option_map (λ before. before ++ bytes.now)
            (given self.old)) }
        ensures kept { files self.new ≡ files self.old };
}
