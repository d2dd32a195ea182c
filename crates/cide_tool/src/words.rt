//! The parts of a word.
ghost use Rattle.std.specs.Prelude.{◌≡◌, ◌==◌, map, IfOk};
ghost use Rattle.std.specs.List.{slice_split};
ghost use Rattle.cide_tool.specs.NamedParts.{named_parts};

use std::alloc::{AllocError, Global};

/// The texts between the commas of a word; `.` has none.
pub fn parts(alloc: Global, word: &str) -> Result<Vec<&str>, AllocError>
    ensures { IfOk result (λ parts. map (λ part. part.now) parts.items ≡ named_parts word.now) }
{
    if word == "." {
        return Ok(Vec::new(alloc));
    }
    split_at_commas(alloc, word)
}

fn split_at_commas(alloc: Global, word: &str) -> Result<Vec<&str>, AllocError>
    ensures { IfOk result (λ parts. map (λ part. part.now) parts.items ≡ slice_split (λ b. b == 44) word.now) }
{
    word.split(',').collect(alloc)
}
