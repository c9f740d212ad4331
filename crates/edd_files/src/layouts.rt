//! Layouts of sources, which are saved in their place.

ghost use Rattle.std.specs.Prelude.{◌≡◌, IfOk, IfSome, List, OnErr, OnOk, Option, option_map, ℕ};
ghost use Rattle.edd_files.specs.Saves.{Account, IsLayoutSaving, IsRead, saving_of, with_saving};

use crate::files::Files;
use crate::named::{NamedFault, of_file};
use crate::reading::{Source, input_of};
use edd_layout::laid_out;
use edd_lexer::fault::LexFault;
use std::alloc::Global;

/// A layout, which is another one than its source has.
#[derive(Drop)]
pub struct Layout<'a> {
    pub name: &'a str,
    pub bytes: Vec<u8>,
}

/// The draft of a source as its layout, where it is one and the source has another. It has the
/// source's tokens, comments and marks. The draft may be any bytes.
#[tactic(auto, using(crate::proofs::SavesLaws::layout_saved))]
pub fn layout_of<'a>(
    alloc: Global,
    source: &Source<'a>,
    draft: Vec<u8>,
) -> Result<Option<Layout<'a>>, LexFault>
    ensures sound { (account : Option Account) (names : List (List ℕ))
        → IsRead account names source.now → IfOk result (λ found. IfSome found
        (λ layout. IsLayoutSaving account names (saving_of layout))) }
{
    let bytes = laid_out(alloc, &source.text, draft)?;
    if bytes.as_slice() == source.text.as_slice() {
        return Ok(None);
    }
    let name = source.name;
    Ok(Some(Layout { name, bytes }))
}

/// Saves a layout in the place of its source.
pub fn save_layout<'a, F: Files>(layout: &Layout<'a>, files: &mut F) -> Result<(), NamedFault<'a>>
    ensures saved { OnOk result (F.account files.new
        ≡ option_map (with_saving (saving_of layout.now)) (F.account files.old)) }
    ensures kept { OnErr result (F.account files.new ≡ F.account files.old) }
{
    let name = layout.name;
    files
        .renew(input_of(name), &layout.bytes)
        .map_err(|fault| of_file(name, fault))
}
