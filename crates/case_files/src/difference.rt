//! What is printed of a case of which something else came than what it wants.

use crate::answer::Answer;
use std::io;

/// The first line in which two outputs differ: its number from 1, and the two lines.
fn first_difference<'a>(wanted: &'a str, came: &'a str) -> Option<(usize, &'a str, &'a str)> {
    let mut lines = came.split('\n');
    let mut number: usize = 0;
    for line in wanted.split('\n') {
        number = number.saturating_add(1);
        let other = lines.next().unwrap_or("(the end)");
        if line != other {
            return Some((number, line, other));
        }
    }
    let more = lines.next()?;
    Some((number.saturating_add(1), "(the end)", more))
}

/// Prints where an output differs.
fn print_output<R: Print + AllocGlobal>(
    rt: &R,
    name: &str,
    wanted: &[u8],
    came: &[u8],
) -> io::Result<()> {
    if wanted == came {
        return Ok(());
    }
    let wanted = String::from_utf8_lossy(rt.alloc(), wanted)?;
    let came = String::from_utf8_lossy(rt.alloc(), came)?;
    if let Some((number, wanted, came)) = first_difference(wanted.as_str(), came.as_str()) {
        println!(rt; "  {name}, line {number}: wanted {wanted:?}")?;
        println!(rt; "  {name}, line {number}: came   {came:?}")?;
    }
    Ok(())
}

/// Prints how an answer differs from what was wanted.
pub fn print_difference<R: Print + AllocGlobal>(
    rt: &R,
    wanted: &Answer,
    came: &Answer,
) -> io::Result<()> {
    if wanted.status != came.status {
        let (wanted, came) = (wanted.status, came.status);
        println!(rt; "  status: wanted {wanted}, came {came}")?;
    }
    print_output(rt, "out", wanted.out.as_slice(), came.out.as_slice())?;
    print_output(rt, "err", wanted.err.as_slice(), came.err.as_slice())
}
