//! What lines of content stand for.

use crate::escapes::{Escape, step};
use crate::fault::CaseFault;
use std::alloc::{AllocError, Global};

/// The bytes that lines of content stand for, one line after another.
///
/// The escape `\^` marks a place: the first of a case stands for nothing, and each later one for the number of the bytes in front of
/// that place.
#[derive(Drop)]
pub struct Content {
    bytes: Vec<u8>,
    place: Option<usize>,
}

impl Content {
    /// Nothing, behind content in which this place was marked.
    pub fn new(alloc: Global, place: Option<usize>) -> Content {
        Content {
            bytes: Vec::new(alloc),
            place,
        }
    }

    /// What these lines stand for, behind content in which this place was marked.
    pub fn of<'a>(
        alloc: Global,
        lines: &'a [&'a str],
        place: Option<usize>,
    ) -> Result<Content, CaseFault<'a>> {
        let mut content = Content::new(alloc, place);
        for line in lines {
            content.push_line(line)?;
        }
        Ok(content)
    }

    /// The bytes.
    pub fn bytes(&self) -> &[u8] {
        self.bytes.as_slice()
    }

    /// Ends the content, and gives its bytes.
    pub fn into_bytes(self) -> Vec<u8> {
        self.bytes
    }

    /// The marked place.
    pub fn place(&self) -> Option<usize> {
        self.place
    }

    /// Adds a byte.
    pub(crate) fn push(&mut self, byte: u8) -> Result<(), AllocError> {
        self.bytes.push(byte)?;
        Ok(())
    }

    /// Adds a number's decimal digits.
    fn push_number(&mut self, number: usize) -> Result<(), AllocError> {
        let digits = format!(in *self.bytes.allocator(); "{number}")?;
        self.bytes.extend_from_slice(digits.as_bytes())
    }

    /// Marks this place, or adds the number of the place that was marked.
    pub(crate) fn mark(&mut self) -> Result<(), AllocError> {
        match self.place {
            Some(place) => self.push_number(place),
            None => {
                self.place = Some(self.bytes.len());
                Ok(())
            }
        }
    }

    /// Adds what a line of content stands for.
    fn push_line<'a>(&mut self, line: &'a str) -> Result<(), CaseFault<'a>> {
        let Some((sign, text)) = line.split_at_checked(1) else {
            return Err(CaseFault::Form(line));
        };
        match sign {
            "|" => {
                self.bytes.extend_from_slice(text.as_bytes())?;
                self.push(b'\n')?;
            }
            ":" => self.bytes.extend_from_slice(text.as_bytes())?,
            "+" => {
                self.push_escaped(text, None)?;
                self.push(b'\n')?;
            }
            "-" => self.push_escaped(text, None)?,
            "*" => self.push_repeated(text)?,
            "#" => self.push_numbered(text)?,
            _ => return Err(CaseFault::Form(line)),
        }
        Ok(())
    }

    /// Adds a text with escapes, in which `%` stands for a number where there is one.
    fn push_escaped<'a>(
        &mut self,
        text: &'a str,
        number: Option<usize>,
    ) -> Result<(), CaseFault<'a>> {
        let mut escape = Escape::Outside;
        for byte in text.bytes() {
            if let (Some(number), b'%') = (number, byte) {
                self.push_number(number)?;
                continue;
            }
            match step(self, escape, byte)? {
                Some(next) => escape = next,
                None => return Err(CaseFault::Form(text)),
            }
        }
        match escape {
            Escape::Outside => Ok(()),
            _ => Err(CaseFault::Form(text)),
        }
    }

    /// Adds a text so many times, as its number in front says.
    fn push_repeated<'a>(&mut self, line: &'a str) -> Result<(), CaseFault<'a>> {
        let (count, text) = counted(line)?;
        let mut once = Content::new(*self.bytes.allocator(), self.place);
        once.push_escaped(text, None)?;
        for _ in 0..count {
            self.bytes.extend_from_slice(once.bytes())?;
        }
        Ok(())
    }

    /// Adds so many lines, as the number in front says, in which `%` stands for the line's number, from 0.
    fn push_numbered<'a>(&mut self, line: &'a str) -> Result<(), CaseFault<'a>> {
        let (count, text) = counted(line)?;
        for number in 0..count {
            self.push_escaped(text, Some(number))?;
            self.push(b'\n')?;
        }
        Ok(())
    }
}

/// A number, and the text behind it and a blank.
fn counted(line: &str) -> Result<(usize, &str), CaseFault<'_>> {
    let Some((count, text)) = line.split_once(' ') else {
        return Err(CaseFault::Form(line));
    };
    match count.parse::<usize>() {
        Ok(count) => Ok((count, text)),
        Err(_) => Err(CaseFault::Form(line)),
    }
}
