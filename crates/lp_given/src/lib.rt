//! What the rows of the commands are run on: files that are given in memory.
#![tactic(auto)]

// The modules of the worked rows.
mod modules;

use lp_base::{MemFolder, Memory};
pub use modules::FILES;
use std::alloc::Global;

/// A folder of these files, each with its name, whose calls of these numbers fail.
pub fn folder(alloc: Global, files: &[(&str, &str)], fail: &[u64]) -> Result<MemFolder, Memory> {
    let mut held = Vec::new(alloc);
    for (name, text) in files {
        held.push((
            String::from_str(alloc, name)?,
            text.as_bytes().to_vec(alloc)?,
        ))?;
    }
    Ok(MemFolder::new(held, fail.to_vec(alloc)?))
}
