//! Copies of what has no references.

ghost use Rattle.std.specs.Prelude.{◌≡◌, IfOk, map};
ghost use Rattle.edd_syntax.specs.ItemView.{response_code_of};
ghost use Rattle.edd_syntax.specs.WordsView.{text_bytes};

use edd_expression_names::texts::copy_text;
use edd_syntax::item::ResponseCode;
use edd_syntax::text::CompactString;
use std::alloc::{AllocError, Global};

/// A copy of words.
pub fn copy_words(words: &[CompactString], alloc: Global) -> Result<Vec<CompactString>, AllocError>
    ensures sound { IfOk result (λ all. map text_bytes all.items ≡ map text_bytes words.now) }
{
    let mut copies = Vec::with_capacity(alloc, words.len())?;
    for word in words {
        copies.push(CompactString::new(alloc, word.as_str())?)?;
    }
    Ok(copies)
}

fn copy_response(response: &ResponseCode, alloc: Global) -> Result<ResponseCode, AllocError>
    ensures sound { IfOk result (λ r. response_code_of r ≡ response_code_of response.now) }
{
    Ok(ResponseCode {
        number: response.number,
        class: response.class,
        text: copy_text(&response.text, alloc)?,
    })
}

/// A copy of response codes.
pub fn copy_responses(
    responses: &[ResponseCode],
    alloc: Global,
) -> Result<Vec<ResponseCode>, AllocError>
    ensures sound { IfOk result (λ all. map response_code_of all.items
        ≡ map response_code_of responses.now) }
{
    let mut copies = Vec::with_capacity(alloc, responses.len())?;
    for response in responses {
        copies.push(copy_response(response, alloc)?)?;
    }
    Ok(copies)
}
