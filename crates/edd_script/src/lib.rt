//! The script of a run: the values of variables and the answers to the requests of a method, as they are
//! read from lines. A script is what its lines say.
#![tactic(auto)]

mod lines;
mod numbers;
mod said;
mod script;
mod words;

pub use numbers::{code, number};
pub use said::{Line, parse_line, text_of, variable};
pub use script::{Script, ScriptFault, answer_line, parse, parse_sets};
