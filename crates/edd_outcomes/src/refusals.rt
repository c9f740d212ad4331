//! What a run was refused with.

use edd_cases::Seen;

const REFUSED: &str = "refused ";

/// What a run is refused with, where its last line says that it is.
pub fn refusal_in<'p>(seen: &[Seen<'p>]) -> Option<&'p str> {
    let last = seen.last()?.text;
    last.starts_with(REFUSED).then_some(last)
}
