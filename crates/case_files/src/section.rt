//! The sections of a case file, and its cases.

use std::alloc::{AllocError, Global};

/// A line that isn't content, with the lines of content below it.
#[derive(Clone, Copy)]
pub struct Section<'a> {
    /// The first word of the line.
    pub word: &'a str,
    /// What stands behind that word and a blank.
    pub rest: &'a str,
    /// The lines of content.
    pub content: &'a [&'a str],
}

/// A section of nothing.
const NO_SECTION: Section<'static> = Section {
    word: "",
    rest: "",
    content: &[],
};

/// Whether a line is content.
fn is_content(line: &str) -> bool {
    matches!(
        line.as_bytes().first(),
        Some(b'|' | b':' | b'+' | b'-' | b'*' | b'#')
    )
}

/// The lines of content at the front.
fn content_of<'a>(lines: &'a [&'a str]) -> &'a [&'a str] {
    match lines.iter().position(|line| !is_content(line)) {
        Some(end) => &lines[..end],
        None => lines,
    }
}

/// The section that a line begins, where these lines stand behind it.
fn section_at<'a>(line: &'a str, behind: &'a [&'a str]) -> Section<'a> {
    let (word, rest) = line.split_once(' ').unwrap_or((line, ""));
    Section {
        word,
        rest,
        content: content_of(behind),
    }
}

/// The lines of a text that aren't empty.
pub fn lines_of(alloc: Global, text: &str) -> Result<Vec<&str>, AllocError> {
    text.split('\n')
        .filter(|line| !line.is_empty())
        .collect(alloc)
}

/// Adds the section that the first of these lines begins; none where that line is content, unless it is the first of all.
fn add_section<'a>(
    sections: &mut Vec<Section<'a>>,
    lines: &'a [&'a str],
) -> Result<(), AllocError> {
    if let Some((line, behind)) = lines.split_first() {
        if !is_content(line) || sections.is_empty() {
            sections.push(section_at(line, behind))?;
        }
    }
    Ok(())
}

/// The sections of a file's lines. Content that no section stands above is a section of its own, which no reader knows.
pub fn sections_of<'a>(
    alloc: Global,
    lines: &'a [&'a str],
) -> Result<Vec<Section<'a>>, AllocError> {
    let mut sections = Vec::new(alloc);
    for at in 0..lines.len() {
        add_section(&mut sections, &lines[at..])?;
    }
    Ok(sections)
}

/// A case: the section with its name, and those behind it up to the next case.
#[derive(Clone, Copy)]
pub struct Case<'a> {
    pub name: &'a str,
    pub sections: &'a [Section<'a>],
}

impl<'a> Case<'a> {
    /// The case that the first of these sections begins, where it begins one.
    pub fn at(sections: &'a [Section<'a>]) -> Option<Case<'a>> {
        let (head, behind) = sections.split_first()?;
        if head.word != "case" {
            return None;
        }
        let sections = match behind.iter().position(|section| section.word == "case") {
            Some(end) => &behind[..end],
            None => behind,
        };
        Some(Case {
            name: head.rest,
            sections,
        })
    }

    /// The first section with this word.
    pub fn section(&self, word: &str) -> Option<Section<'a>> {
        self.sections
            .iter()
            .find(|section| section.word == word)
            .copied()
    }

    /// The content of the first section with this word; nothing where there is none.
    pub fn content(&self, word: &str) -> &'a [&'a str] {
        self.section(word).unwrap_or(NO_SECTION).content
    }
}
