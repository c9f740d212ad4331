//! The kinds of arguments that commands have, and what was given for them.

use clap::{Arg, ArgMatches};
use std::alloc::Global;

/// An argument by its place, without which there is no command.
pub fn required<'a>(alloc: Global, id: &'a str, name: &'a str, help: &'a str) -> Arg<'a> {
    Arg::new(alloc, id)
        .value_name(name)
        .required(true)
        .help(help)
}

/// An option with a value.
pub fn option<'a>(alloc: Global, id: &'a str, name: &'a str, help: &'a str) -> Arg<'a> {
    Arg::new(alloc, id).long(id).value_name(name).help(help)
}

/// What was given for an argument. clap gives each required argument and each option with a default
/// a value, so the empty word stands for nothing that comes.
pub fn word<'a>(of: &ArgMatches<'a>, id: &str) -> &'a str {
    of.get_str(id).unwrap_or("")
}
