//! Which way bytes are written, by what is at their place.

ghost use Rattle.std.specs.Prelude.{◌↔◌, IsTrue};
ghost use Rattle.edd_system.specs.Ways.{IsOpened, IsWay};

/// Which file this is, whatever the name by which it was found.
#[derive(Clone, Copy, Debug, PartialEq, Eq)]
pub struct Identity {
    pub device: u64,
    pub number: u64,
}

/// What is at a place.
#[derive(Clone, Copy, Debug)]
pub enum Standing {
    Free,
    /// A plain file, which another can replace.
    Plain(Identity),
    /// What keeps bytes and can't be replaced, as a block device.
    Fixed(Identity),
    /// What takes bytes and keeps none, as a pipe.
    Stream,
}

/// How bytes are written.
#[derive(Clone, Copy, Debug)]
pub enum Way {
    /// Into a new file, which then takes the place.
    Beside,
    /// Into what is there.
    AsItIs,
    /// Not at all: it was opened, so what it holds is in use.
    Refused,
}

// Whether the file that is there was opened.
fn is_opened(standing: Standing, opened: &[Identity]) -> bool
    ensures { IsTrue result ↔ IsOpened standing opened.now }
{
    match standing {
        Standing::Plain(identity) | Standing::Fixed(identity) => opened.contains(&identity),
        Standing::Free | Standing::Stream => false,
    }
}

/// Which way is taken, where these files were opened.
pub fn choose_way(standing: Standing, opened: &[Identity]) -> Way
    ensures { IsWay standing opened.now result }
{
    if is_opened(standing, opened) {
        return Way::Refused;
    }
    match standing {
        Standing::Free | Standing::Plain(_) => Way::Beside,
        Standing::Fixed(_) | Standing::Stream => Way::AsItIs,
    }
}
