//! What the program does on each request.

ghost use Rattle.std.specs.Prelude.{IfErr, OnOk};
ghost use Rattle.edd_files.specs.Saves.{SavesOne};
ghost use Rattle.edd_program.specs.Done.{Does};
ghost use Rattle.edd_program.specs.Saved.{MaySave};
ghost use Rattle.edd_program.specs.Statuses.{Stops};

use crate::compiling::write_image;
use crate::playing::{play_image, try_source};
use crate::request::Request;
use crate::showing::{show_image, view_source};
use crate::stop::Stop;
use edd_files::Files;
use std::alloc::Global;
use std::io::Write;

/// Does what a request asks for.
#[tactic(auto, using(edd_files::proofs::SavesLaws::saves_none))]
pub fn answer<'a, F: Files, W: Write>(
    alloc: Global,
    request: Request<'a>,
    files: &mut F,
    out: &mut W,
) -> Result<(), Stop<'a>>
    ensures saves { SavesOne (MaySave request.entry (F.account files.old)) (F.account files.old)
        (F.account files.new) }
    ensures done { OnOk result (Does request.entry (F.account files.old) (F.account files.new)
        (W.contents out.old) (W.contents out.new)) }
    ensures stopped { IfErr result (Stops request.entry (F.account files.old) (W.contents out.old)
        (W.contents out.new)) }
{
    match request {
        Request::Compile { source, image } => write_image(alloc, source, image, files, out),
        Request::View(showing) => view_source(alloc, showing, files, out),
        Request::Show(showing) => show_image(alloc, showing, files, out),
        Request::Play { image, run } => play_image(alloc, image, run, files, out),
        Request::Try { source, run } => try_source(alloc, source, run, files, out),
    }
}
