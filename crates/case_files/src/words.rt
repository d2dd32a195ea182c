//! The words of a line.

use crate::content::Content;
use crate::escapes::{Escape, step};
use crate::fault::CaseFault;
use std::alloc::{AllocError, Global};

/// Where in a line of words the next byte stands.
#[derive(Clone, Copy)]
enum Place {
    /// Between two words.
    Between,
    /// In a plain word.
    Plain,
    /// In quotes, this far in an escape.
    Quoted(Escape),
}

/// Words as they are read: those that are complete, and what is read of the next.
#[derive(Drop)]
struct Words {
    whole: Vec<String>,
    next: Content,
}

impl Words {
    /// Takes a byte; nothing where no line of words goes on so.
    fn step(&mut self, place: Place, byte: u8) -> Result<Option<Place>, AllocError> {
        match (place, byte) {
            (Place::Between, b' ') => Ok(Some(Place::Between)),
            (Place::Between, b'"') => Ok(Some(Place::Quoted(Escape::Outside))),
            (Place::Between | Place::Plain, byte) if byte != b' ' => {
                self.next.push(byte)?;
                Ok(Some(Place::Plain))
            }
            (Place::Between | Place::Plain, _) | (Place::Quoted(Escape::Outside), b'"') => {
                Ok(if self.end()? {
                    Some(Place::Between)
                } else {
                    None
                })
            }
            (Place::Quoted(escape), byte) => {
                Ok(step(&mut self.next, escape, byte)?.map(Place::Quoted))
            }
        }
    }

    /// Ends the next word; not where it is no text.
    fn end(&mut self) -> Result<bool, AllocError> {
        let alloc = *self.whole.allocator();
        let read = std::mem::replace(&mut self.next, Content::new(alloc, None));
        match String::from_utf8(read.into_bytes()) {
            Ok(word) => {
                self.whole.push(word)?;
                Ok(true)
            }
            Err(_) => Ok(false),
        }
    }
}

/// The words of a line, with blanks between them. A word in double quotes may have blanks and escapes in it.
pub fn words_of(alloc: Global, line: &str) -> Result<Vec<String>, CaseFault<'_>> {
    let mut words = Words {
        whole: Vec::new(alloc),
        next: Content::new(alloc, None),
    };
    let mut place = Place::Between;
    for byte in line.bytes() {
        match words.step(place, byte)? {
            Some(next) => place = next,
            None => return Err(CaseFault::Form(line)),
        }
    }
    match place {
        Place::Between => Ok(words.whole),
        Place::Plain if words.end()? => Ok(words.whole),
        _ => Err(CaseFault::Form(line)),
    }
}
