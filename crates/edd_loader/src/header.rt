//! The rules on the header.

ghost use Rattle.std.specs.Prelude.{◌≡◌, ◌≤◌, MatchOption, length, is_some};
ghost use Rattle.edd_image.specs.Fields.{header_length, version_number};
ghost use Rattle.edd_image.specs.Contents.{version_of};
ghost use Rattle.edd_instructions.specs.Validity.{BreaksFirst, lengths_agree};
ghost use Rattle.edd_loader.specs.Rules.{KeepsBelow};

use edd_image::{
    CODE_LIMIT, HEADER_LENGTH, code_length, has_magic, sections_end, total_length, version,
};
use edd_instructions::Rule;

// Whether the lengths add up to the number of bytes, and the code is within its limit.
fn lengths_agree(bytes: &[u8]) -> bool
    requires { header_length ≤ length bytes.now }
    ensures { result ≡ lengths_agree bytes.now }
{
    total_length(bytes) as usize == bytes.len()
        && sections_end(bytes) == bytes.len() as u64
        && code_length(bytes) as usize <= CODE_LIMIT
}

// Whether the version is known.
fn is_known(bytes: &[u8]) -> bool
    requires { header_length ≤ length bytes.now }
    ensures { result ≡ is_some (version_of (version_number bytes.now)) }
{
    version(bytes).is_some()
}

/// The first of the rules on the header that is broken, if one is.
pub fn broken_in_header(bytes: &[u8]) -> Option<Rule>
    ensures { MatchOption result (KeepsBelow bytes.now 105) (BreaksFirst bytes.now) }
{
    if bytes.len() < HEADER_LENGTH {
        return Some(Rule::Short);
    }
    if !has_magic(bytes) {
        return Some(Rule::Magic);
    }
    if !is_known(bytes) {
        return Some(Rule::Version);
    }
    if !lengths_agree(bytes) {
        return Some(Rule::Length);
    }
    None
}
