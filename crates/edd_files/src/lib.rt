//! The files of the program: what it reads, and under which names it saves what. Proved is that what
//! is saved is what the words of the command line ask for.
#![tactic(auto)]

mod compiling;
mod files;
mod layouts;
mod named;
mod naming;
mod reading;
mod saving;

pub use compiling::{Compiled, save_image};
pub use files::{FileFault, Files, MOST_BYTES, read_all};
pub use layouts::{Layout, layout_of, save_layout};
pub use named::{NamedFault, of_file};
pub use naming::are_in_order;
pub use reading::{
    INPUT, STANDARD, Source, input_of, read, read_bytes, read_marked, read_script, read_sources,
};
pub use saving::{save_record, save_update};
