//! The checked loading of an image.
#![tactic(auto)]

mod abort_methods;
mod attributes;
mod checks;
mod codes;
mod elements;
mod fault;
mod header;
mod image;
mod lookups;
mod names;
mod ranks;
mod rows;
mod sections;
mod spans;
mod spot;
mod starts;
mod texts;
mod units;
mod words;

pub use fault::LoadFault;
pub use image::{Image, fault_in, load, reopen};
pub use ranks::{attribute_row, body_row};
pub use spot::{Site, Spot};
pub use starts::Starts;
pub use texts::Text;
pub use words::{Piece, variant_from};
