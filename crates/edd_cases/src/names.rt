//! Names of files that a file of tests gives.

use std::alloc::{AllocError, Global};

/// The path of a file that is named in another one: it is looked for in the folder of that one,
/// unless it begins at the root.
pub fn beside(alloc: Global, file: &str, name: &str) -> Result<String, AllocError> {
    match file.rsplit_once('/') {
        Some((folder, _)) if !name.starts_with('/') => format!(in alloc; "{folder}/{name}"),
        _ => String::from_str(alloc, name),
    }
}
