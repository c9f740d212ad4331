//! The calls on a text, on strings and on the elements of a description.

use crate::stop::Stop;
use edd_compiler::checked_of;
use edd_lexer::lex;
use edd_strings::{Table, split};
use edd_syntax::words::{Variant, Words};

/// Where the tokens of a text are.
pub fn print_tokens(rt: HostRuntime) -> Result<(), Stop> {
    for token in &lex(rt.alloc(), b"x 0x1F")? {
        println!(rt; "lex: {} to {}", token.start, token.end)?;
    }
    Ok(())
}

/// The variants of strings, and the numbers that a table gives them.
pub fn print_numbers(rt: HostRuntime) -> Result<(), Stop> {
    let mut table = Table::new(rt.alloc());
    for raw in ["a |de|b", "a |de|b", ""] {
        let words = split(rt.alloc(), raw)?;
        print_words(rt, &words)?;
        let number = table.add(words)?;
        println!(rt; "add: {}", number.0)?;
    }
    Ok(())
}

fn print_words(rt: HostRuntime, words: &Words) -> Result<(), Stop> {
    match words {
        Words::Variants { first, rest } => {
            print_variant(rt, first)?;
            for variant in rest {
                print_variant(rt, variant)?;
            }
            Ok(())
        }
        Words::Key(key) => {
            println!(rt; "split: [{}]", key.name)?;
            Ok(())
        }
    }
}

fn print_variant(rt: HostRuntime, variant: &Variant) -> Result<(), Stop> {
    println!(rt; "split: {} \"{}\"", variant.code, variant.text.as_str())?;
    Ok(())
}

/// Two arrays, and a number of the first that falls.
const ARRAYS: &str = "MANUFACTURER 1, DEVICE_TYPE 2, DEVICE_REVISION 3, DD_REVISION 4
    VARIABLE x { TYPE INTEGER; } VARIABLE y { TYPE INTEGER; }
    ARRAY OF VARIABLE a { ELEMENTS { 5, y; 1, x; } }
    ARRAY OF VARIABLE b { ELEMENTS { 0, y; } }";

/// The elements of a description, in the order of an image.
pub fn print_elements(rt: HostRuntime) -> Result<(), Stop> {
    let checked = checked_of(rt.alloc(), ARRAYS.as_bytes())?;
    println!(rt; "version: {}", checked.version())?;
    for element in &checked.elements(rt.alloc())? {
        println!(rt;
            "element: {} of array {} is variable {}",
            element.number, element.array.0, element.var.0
        )?;
    }
    Ok(())
}
