//! Where a user is.

use edd_syntax::numbers::{CollNo, MenuNo, VarNo};

/// What has a screen of entries.
#[derive(Clone, Copy)]
pub enum Place {
    /// The menus that no other menu names, or all variables and methods where there is no menu.
    Top,
    Menu(MenuNo),
    Collection(CollNo),
}

/// A place, and whether it was entered through an entry that is READ_ONLY.
#[derive(Clone, Copy)]
pub struct Level {
    pub place: Place,
    pub read_only: bool,
}

/// A variable that is looked at or edited, and whether its entry is READ_ONLY.
#[derive(Clone, Copy)]
pub struct Field {
    pub variable: VarNo,
    pub read_only: bool,
}
