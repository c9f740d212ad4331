//! What an image shows: its items and their attributes as lines, under the values of variables that
//! a script sets, and what its methods do.
#![tactic(auto)]

mod fault;
mod items;
mod laws;
mod lines;
mod page;
mod plays;
mod printer;
mod records;
mod rows;
mod words;
mod written;

pub use fault::ShowFault;
pub use items::show;
pub use laws::{entries_stand_once, one_text_is_shown, quoted_texts_are_told_apart};
pub use lines::{print, print_text};
pub use page::push_quoted;
pub use plays::show_play;
pub use printer::{Printer, add_qualifiers, add_quoted, printed};
pub use words::{
    DATA_QUALIFIERS, MENU_QUALIFIERS, class_word, push_qualifiers, trap_word, type_word,
};
