//! Why a simulated device has no answer.

ghost use Rattle.std.specs.Prelude.{◌≡◌};
ghost use Rattle.edd_device.specs.declared.fault.DeviceFault.TheVariants as device_fault;

use edd_syntax::answer::Trap;
use edd_syntax::numbers::{CmdNo, MethNo, VarNo};
use std::alloc::{AllocError, AllocFailed};
use thiserror::Error;

/// Why a simulated device has no answer. Each fault but `Memory` prints its number and its kind.
#[derive(Clone, Copy, Debug, PartialEq, Eq, Error)]
pub enum DeviceFault {
    /// A method of the device asks.
    #[error("270 DEVICE_ASKS")]
    Asks(MethNo),
    /// A method of the device traps.
    #[error("271 DEVICE_TRAPS")]
    Traps(MethNo, Trap),
    /// A method of the device aborts.
    #[error("272 DEVICE_ABORTS")]
    Aborts(MethNo),
    /// A method of the device does not end within its instructions.
    #[error("273 DEVICE_RUNS_ON")]
    RunsOn(MethNo),
    /// The instrument has no command of the number.
    #[error("274 NO_COMMAND")]
    NoCommand(i32),
    /// The command of the first number has no transaction of the second.
    #[error("275 NO_TRANSACTION")]
    NoTransaction(i32, i32),
    /// What a transaction of the command carries has no value.
    #[error("276 NO_MESSAGE")]
    NoMessage(CmdNo, Trap),
    /// The value of a variable is out of the range of the other side's variable. The number is the
    /// instrument's.
    #[error("277 DEVICE_RANGE")]
    OutOfRange(VarNo),
    /// The code of an answer has more than 32 bits.
    #[error("278 DEVICE_CODE")]
    WrongCode,
    #[error("no memory")]
    Memory,
}

impl From<AllocError> for DeviceFault {
    ghost from_gives = { λ _ e. e ≡ device_fault.Memory };

    fn from(_e: AllocError) -> DeviceFault {
        DeviceFault::Memory
    }
}

impl<T: Drop> From<AllocFailed<T>> for DeviceFault {
    ghost from_gives = { λ _ e. e ≡ device_fault.Memory };

    fn from(_e: AllocFailed<T>) -> DeviceFault {
        DeviceFault::Memory
    }
}
