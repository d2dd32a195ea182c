//! The words that the program was given.

use std::alloc::AllocGlobal;
use std::env::{self, Env};
use std::io::ErrorKind;

/// Why there are no words.
#[derive(Drop)]
pub enum NoWords {
    /// A word isn't UTF-8.
    NotText,
    /// There was no memory.
    NoMemory,
}

/// The words that the program was given after its name.
pub fn words<R: Env + AllocGlobal>(rt: &R) -> Result<Vec<String>, NoWords> {
    let mut all = match env::args(rt) {
        Ok(all) => all,
        Err(error) if error.kind() == ErrorKind::OutOfMemory => return Err(NoWords::NoMemory),
        Err(_) => return Err(NoWords::NotText),
    };
    let _name = all.next();
    match all.collect(rt.alloc()) {
        Ok(words) => Ok(words),
        Err(_) => Err(NoWords::NoMemory),
    }
}
