//! Why the program stops before its end.

use edd_display::ShowFault;
use edd_files::NamedFault;
use edd_loader::LoadFault;
use edd_machine::ValuesFault;
use edd_port::PlayFault;
use edd_script::ScriptFault;
use std::alloc::{AllocError, AllocFailed};

/// Why the program stops before its end.
#[derive(Drop)]
pub enum Stop<'a> {
    /// The file of this name could not be read or written.
    File(&'a str),
    /// The source is refused, which is told so.
    NotCompiled(String),
    NotLoaded(LoadFault),
    /// A text is shown as an image. The line says what helps.
    TextAsImage(String),
    Script(ScriptFault),
    Values(ValuesFault),
    /// The image has no method of this name.
    NoMethod(&'a str),
    Play(PlayFault),
    /// The output could not be written.
    Output,
    Memory,
}

impl<'a> From<NamedFault<'a>> for Stop<'a> {
    ghost use Rattle.std.specs.Prelude.{◌≡◌};
    ghost use Rattle.edd_program.specs.Reasons.{of_named};

    ghost from_gives = { λ fault stop. stop ≡ of_named fault };

    fn from(fault: NamedFault<'a>) -> Self {
        match fault {
            NamedFault::File(name, _) => Stop::File(name),
            NamedFault::Memory => Stop::Memory,
        }
    }
}

impl From<LoadFault> for Stop<'_> {
    ghost use Rattle.std.specs.Prelude.{◌≡◌};
    ghost use Rattle.edd_program.specs.Reasons.{of_load};

    ghost from_gives = { λ fault stop. stop ≡ of_load fault };

    fn from(fault: LoadFault) -> Self {
        match fault {
            LoadFault::Memory => Stop::Memory,
            other => Stop::NotLoaded(other),
        }
    }
}

impl From<ScriptFault> for Stop<'_> {
    ghost use Rattle.std.specs.Prelude.{◌≡◌};
    ghost use Rattle.edd_program.specs.Reasons.{of_script};

    ghost from_gives = { λ fault stop. stop ≡ of_script fault };

    fn from(fault: ScriptFault) -> Self {
        match fault {
            ScriptFault::Memory => Stop::Memory,
            other => Stop::Script(other),
        }
    }
}

impl From<ValuesFault> for Stop<'_> {
    ghost use Rattle.std.specs.Prelude.{◌≡◌};
    ghost use Rattle.edd_program.specs.Reasons.{of_values};

    ghost from_gives = { λ fault stop. stop ≡ of_values fault };

    fn from(fault: ValuesFault) -> Self {
        match fault {
            ValuesFault::Memory => Stop::Memory,
            other => Stop::Values(other),
        }
    }
}

impl From<PlayFault> for Stop<'_> {
    ghost use Rattle.std.specs.Prelude.{◌≡◌};
    ghost use Rattle.edd_program.specs.Reasons.{of_play};

    ghost from_gives = { λ fault stop. stop ≡ of_play fault };

    fn from(fault: PlayFault) -> Self {
        match fault {
            PlayFault::Memory => Stop::Memory,
            other => Stop::Play(other),
        }
    }
}

impl From<ShowFault> for Stop<'_> {
    ghost use Rattle.std.specs.Prelude.{◌≡◌};
    ghost use Rattle.edd_program.specs.Reasons.{of_show};

    ghost from_gives = { λ fault stop. stop ≡ of_show fault };

    fn from(fault: ShowFault) -> Self {
        match fault {
            ShowFault::Memory => Stop::Memory,
            ShowFault::Output => Stop::Output,
            ShowFault::WrongValues => Stop::Values(ValuesFault::Count),
        }
    }
}

impl From<AllocError> for Stop<'_> {
    ghost use Rattle.std.specs.Prelude.{◌≡◌};
    ghost use Rattle.edd_program.specs.declared.stop.Stop.TheVariants.{Memory};

    ghost from_gives = { λ _ stop. stop ≡ Memory };

    fn from(_error: AllocError) -> Self {
        Stop::Memory
    }
}

impl<T: Drop> From<AllocFailed<T>> for Stop<'_> {
    fn from(_error: AllocFailed<T>) -> Self {
        Stop::Memory
    }
}
