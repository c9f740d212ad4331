//! Instructions of blocks, and jumps whose target is written when the place after them is known.

ghost use Rattle.std.specs.Prelude.{◌≡◌, ◌+◌, ◌≤◌, ◌++◌, length, IfOk, OnErr, OnOk};
ghost use Rattle.edd_instructions.specs.Spelling.{head_length, jump_to, spelling};
ghost use Rattle.edd_code.specs.Closing.{closed};

use edd_instructions::{Emitter, Hole, Instruction, Jump, encode, head};
use std::alloc::AllocError;

/// Writes an instruction after the code.
pub fn put(code: &mut Emitter, instruction: Instruction) -> Result<(), AllocError>
    ensures code { OnOk result (code.new ≡ code.old ++ spelling instruction) }
    ensures kept { OnErr result (code.new ≡ code.old) }
{
    code.emit(encode(instruction).as_slice())
}

/// Writes a jump after the code, whose target is open.
pub fn open(code: &mut Emitter, jump: Jump) -> Result<Hole, AllocError>
    ensures code { OnOk result (code.new ≡ code.old ++ spelling (jump_to jump 0)) }
    ensures place { IfOk result (λ hole. hole ≡ length code.old + head_length jump) }
    ensures kept { OnErr result (code.new ≡ code.old) }
{
    code.hole(head(jump).as_slice())
}

/// Lets an open target be the place after the code so far. No unit is as long as 2^32 bytes.
pub fn close(code: &mut Emitter, hole: Hole)
    requires { hole + 4 ≤ length code.old }
    ensures { code.new ≡ closed code.old hole }
{
    let target = code.place();
    code.patch(hole, target);
}
