//! The files of the system, so written that none is lost: an image is written beside its place, and
//! then takes it.
#![tactic(auto)]

mod disk;
mod files;
mod links;
mod saving;
mod system;
mod way;

pub use disk::Disk;
pub use files::DiskFiles;
pub use saving::save;
pub use system::{NewFile, Opened, SystemDisk};
pub use way::{Identity, Standing, Way, choose_way};
