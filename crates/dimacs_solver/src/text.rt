//! The numbers of a text in the DIMACS form.

use std::alloc::{AllocError, Global};

/// The numbers of a text.
#[derive(Drop)]
pub(crate) struct Numbers {
    /// How many variables there are, if a line tells it, else 0.
    pub(crate) vars: u64,
    /// The literals of all clauses, with a 0 behind each clause.
    pub(crate) list: Vec<i64>,
}

/// The number of variables in a line `p cnf VARIABLES CLAUSES`.
fn vars_of(line: &str) -> Option<u64> {
    let mut words = line.split_whitespace();
    if words.next()? != "p" || words.next()? != "cnf" {
        return None;
    }
    words.next()?.parse::<u64>().ok()
}

/// Puts the numbers of a line at the end of a list; whether all its words are numbers.
fn read_line(list: &mut Vec<i64>, line: &str) -> Result<bool, AllocError> {
    'words: for word in line.split_whitespace() {
        match word.parse::<i64>() {
            Ok(number) => list.push(number)?,
            Err(_) => return Ok(false),
        }
    }
    Ok(true)
}

/// The numbers of a text; nothing where it has other words.
pub(crate) fn read_text(alloc: Global, text: &str) -> Result<Option<Numbers>, AllocError> {
    let mut vars = 0;
    let mut list = Vec::new(alloc);
    'lines: for line in text.lines() {
        if line.starts_with("c") {
            continue;
        }
        if line.starts_with("p") {
            match vars_of(line) {
                Some(told) => vars = told,
                None => return Ok(None),
            }
        } else if !read_line(&mut list, line)? {
            return Ok(None);
        }
    }
    Ok(Some(Numbers { vars, list }))
}
