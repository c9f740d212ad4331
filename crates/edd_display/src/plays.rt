//! The lines of a method's run: its requests, how it ends, and the values that it leaves.

ghost use Rattle.std.specs.Prelude.{◌≡◌, ◌++◌, ◌∷◌, [], IfErr, OnOk, false, string_bytes};
ghost use Rattle.std.specs.Io.KnownBytes.{Appends};
ghost use Rattle.std.specs.List.{flat_map, range_with_len};
ghost use Rattle.edd_syntax.specs.declared.numbers.ItemNo.TheVariants as items;
ghost use Rattle.edd_image.specs.Contents.{contents_in};
ghost use Rattle.edd_display.specs.Played as played;
ghost use Rattle.edd_display.specs.Shown.{blames_values};
ghost use Rattle.edd_display.specs.Words.{name_of};

use crate::fault::ShowFault;
use crate::lines::print;
use crate::page::Page;
use crate::words::trap_word;
use edd_instructions::{Request, RequestArgument};
use edd_loader::Image;
use edd_machine::Values;
use edd_port::{Ending, Transcript};
use edd_syntax::numbers::{ItemNo, VarNo};
use std::alloc::{AllocError, Global};
use std::io::Write;

fn push_variable(page: &Page<'_, '_>, line: &mut String, variable: VarNo) -> Result<(), AllocError>
    ensures { OnOk result (string_bytes line.new ≡ string_bytes line.old
        ++ 32 ∷ name_of (contents_in page.now.image.now) (items.Variable variable)) }
{
    line.push(' ')?;
    line.push_str(page.name(ItemNo::Variable(variable)))
}

// An argument of a request, after a blank.
fn push_argument(
    page: &Page<'_, '_>,
    line: &mut String,
    argument: RequestArgument,
) -> Result<(), AllocError>
    ensures { OnOk result (string_bytes line.new ≡ string_bytes line.old
        ++ played.argument_shown (contents_in page.now.image.now) page.now.language.now argument) }
{
    match argument {
        RequestArgument::Text(text) => page.push_optional(line, Some(text)),
        RequestArgument::Number(number) => write!(line, " {number}"),
        RequestArgument::Variable(variable) => push_variable(page, line, variable),
    }
}

// The arguments in their order.
fn push_arguments(
    page: &Page<'_, '_>,
    line: &mut String,
    arguments: &[RequestArgument],
) -> Result<(), AllocError>
    ensures { OnOk result (string_bytes line.new ≡ string_bytes line.old
        ++ flat_map (played.argument_shown (contents_in page.now.image.now) page.now.language.now)
        arguments.now) }
{
    for argument in arguments {
        push_argument(page, line, *argument)?;
    }
    Ok(())
}

#[tactic(auto, unfolding(crate::specs::Played::request_line, crate::specs::Played::arguments_shown))]
fn print_request<W: Write>(
    alloc: Global,
    page: &Page<'_, '_>,
    request: Request,
    out: &mut W,
) -> Result<(), ShowFault>
    ensures sound { OnOk result (Appends (W.contents out.old) (W.contents out.new)
        (played.request_line (contents_in page.now.image.now) page.now.language.now request)) }
    ensures refused { IfErr result (λ fault. blames_values fault ≡ false) }
{
    let mut line = String::from_str(alloc, "ask ")?;
    line.push_str(request.kind().name())?;
    push_arguments(page, &mut line, request.arguments().as_slice())?;
    print(alloc, out, line.as_str())
}

fn print_requests<W: Write>(
    alloc: Global,
    page: &Page<'_, '_>,
    requests: &[Request],
    out: &mut W,
) -> Result<(), ShowFault>
    ensures sound { OnOk result (Appends (W.contents out.old) (W.contents out.new)
        (flat_map (played.request_line (contents_in page.now.image.now) page.now.language.now)
        requests.now)) }
    ensures refused { IfErr result (λ fault. blames_values fault ≡ false) }
{
    for request in requests {
        print_request(alloc, page, *request, out)?;
    }
    Ok(())
}

fn print_end<W: Write>(alloc: Global, ending: Ending, out: &mut W) -> Result<(), ShowFault>
    ensures sound { OnOk result (Appends (W.contents out.old) (W.contents out.new)
        (played.ending_shown ending ++ 10 ∷ [])) }
    ensures refused { IfErr result (λ fault. blames_values fault ≡ false) }
{
    match ending {
        Ending::Ended => print(alloc, out, "end ended"),
        Ending::Aborted => print(alloc, out, "end aborted"),
        Ending::Trapped(why) => {
            let word = trap_word(why);
            print(alloc, out, format_args!("end trapped {word}"))
        }
        Ending::Waiting => print(alloc, out, "end waiting"),
        Ending::Spent => print(alloc, out, "end spent"),
    }
}

// The line of a variable's value, where it has one.
fn print_value<W: Write>(
    alloc: Global,
    page: &Page<'_, '_>,
    values: &Values,
    number: u16,
    out: &mut W,
) -> Result<(), ShowFault>
    ensures sound { OnOk result (Appends (W.contents out.old) (W.contents out.new)
        (played.value_line (contents_in page.now.image.now) values.now.numbers.items number)) }
    ensures refused { IfErr result (λ fault. blames_values fault ≡ false) }
{
    let variable = VarNo(number);
    let Some(value) = values.get(variable) else {
        return Ok(());
    };
    let name = page.name(ItemNo::Variable(variable));
    print(alloc, out, format_args!("value {name} {value}"))
}

#[tactic(auto, using(crate::proofs::Printing::appends_numbers))]
fn print_values<W: Write>(
    alloc: Global,
    page: &Page<'_, '_>,
    values: &Values,
    out: &mut W,
) -> Result<(), ShowFault>
    ensures sound { OnOk result (Appends (W.contents out.old) (W.contents out.new)
        (flat_map (played.value_line (contents_in page.now.image.now) values.now.numbers.items)
        (range_with_len 0 (contents_in page.now.image.now).counts.variables))) }
    ensures refused { IfErr result (λ fault. blames_values fault ≡ false) }
{
    for number in 0..page.counts().variables {
        print_value(alloc, page, values, number, out)?;
    }
    Ok(())
}

/// Prints what a method did: a line for each request, one for its end, and one for the value of
/// each variable.
#[tactic(auto, unfolding(crate::specs::Played::played_text))]
pub fn show_play<W: Write>(
    alloc: Global,
    image: &Image<'_>,
    play: &Transcript,
    language: &str,
    out: &mut W,
) -> Result<(), ShowFault>
    ensures sound { OnOk result (Appends (W.contents out.old) (W.contents out.new)
        (played.played_text (contents_in image.now) language.now play.now)) }
    ensures refused { IfErr result (λ fault. blames_values fault ≡ false) }
{
    let page = Page { image, language };
    print_requests(alloc, &page, &play.requests, out)?;
    print_end(alloc, play.ending, out)?;
    print_values(alloc, &page, &play.values, out)
}
