//! Code that is written from its beginning to its end, with targets that are filled in later.

ghost use Rattle.std.specs.Prelude.{◌≡◌, ◌+◌, ◌%◌, ◌^◌, ◌≤◌, [], ◌++◌, length, take, drop, IfOk, OnErr, OnOk};
ghost use Rattle.edd_image.specs.Layout.{u32};

use std::alloc::{AllocError, Global};
use std::marker::Model;

/// Code so far. Contracts see it as its bytes.
#[derive(Drop)]
pub struct Emitter {
    bytes: Vec<u8>,
}

impl Model for Emitter {
    ghost use Rattle.std.specs.Prelude.{ℕ, List};

    ghost Value = { List ℕ };

    ghost view = { λ emitter. emitter.bytes.items };
}

/// The place of a target that is still open. Contracts see it as that place. It is filled once, or
/// dropped.
#[derive(Drop)]
pub struct Hole {
    place: usize,
}

impl Model for Hole {
    ghost use Rattle.std.specs.Prelude.{ℕ};

    ghost Value = { ℕ };

    ghost view = { λ hole. hole.place };
}

impl Emitter {
    /// No code yet. It takes no memory.
    pub fn new(alloc: Global) -> Emitter
        ensures { result ≡ [] }
    {
        Emitter {
            bytes: Vec::new(alloc),
        }
    }

    /// No code yet, with room for so many bytes.
    pub fn with_capacity(alloc: Global, count: usize) -> Result<Emitter, AllocError>
        ensures { IfOk result (λ emitter. emitter ≡ []) }
    {
        Ok(Emitter {
            bytes: Vec::with_capacity(alloc, count)?,
        })
    }

    /// How many bytes there are, modulo 2^32. No unit of an image has as many.
    pub fn place(&self) -> u32
        ensures { result ≡ length self.now % 2 ^ 32 }
    {
        (self.bytes.len() as u64 % 0x1_0000_0000) as u32
    }

    /// Writes these bytes after the code.
    pub fn emit(&mut self, bytes: &[u8]) -> Result<(), AllocError>
        ensures code { OnOk result (self.new ≡ self.old ++ bytes.now) }
        ensures kept { OnErr result (self.new ≡ self.old) }
    {
        self.bytes.extend_from_slice(bytes)
    }

    /// Writes these bytes and four zeros after them, which are a target that is still open.
    pub fn hole(&mut self, head: &[u8]) -> Result<Hole, AllocError>
        ensures code { OnOk result (self.new ≡ self.old ++ (head.now ++ u32 0)) }
        ensures place { IfOk result (λ hole. hole ≡ length self.old + length head.now) }
        ensures kept { OnErr result (self.new ≡ self.old) }
    {
        let before = self.bytes.len();
        let place = before + head.len();
        self.bytes.extend_from_slice(head)?;
        if let Err(error) = self.bytes.extend_from_slice(&[0; 4]) {
            self.bytes.truncate(before);
            return Err(error);
        }
        Ok(Hole { place })
    }

    /// Fills a hole with a target.
    pub fn patch(&mut self, hole: Hole, target: u32)
        requires { hole + 4 ≤ length self.old }
        ensures { self.new ≡ take hole self.old ++ (u32 target ++ drop (hole + 4) self.old) }
    {
        self.bytes[hole.place..hole.place + 4].copy_from_slice(&target.to_be_bytes());
    }

    /// The code.
    pub fn finish(self) -> Vec<u8>
        ensures { result.items ≡ self }
    {
        let Emitter { bytes } = self;
        bytes
    }
}
