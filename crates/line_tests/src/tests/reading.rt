//! Sources that are cut into pieces, read line by line.

use cide_io::Source;
use source_lines::{CutSource, Lines, NoLines, Read};
use std::alloc::{AllocError, Global};
use std::test::Fail;

/// Appends what a reader answers up to the end, or up to eight answers: each line with a `|`, and a word for what is no line.
fn tell<S: Source>(lines: &mut Lines<S>, told: &mut Vec<u8>) -> Result<(), AllocError> {
    for _ in 0..8 {
        match lines.advance() {
            Read::Line => {
                told.extend_from_slice(lines.line())?;
                told.extend_from_slice(b"|")?;
            }
            Read::TooLong => told.extend_from_slice(b"long,")?,
            Read::ReadFault => told.extend_from_slice(b"fault,")?,
            Read::End => return told.extend_from_slice(b"end"),
        }
    }
    Ok(())
}

/// What is told of a text that comes in pieces of so many bytes, from a source of which the calls with these numbers fail.
fn told(
    alloc: Global,
    text: &[u8],
    piece: usize,
    fails: &[u64],
    limit: usize,
) -> Result<Vec<u8>, AllocError> {
    let bytes = Vec::from_slice(alloc, text)?;
    let fails = Vec::from_slice(alloc, fails)?;
    let mut told = Vec::new(alloc);
    if piece == 0 {
        return Ok(told);
    }
    match Lines::new(alloc, CutSource::new(bytes, piece, fails), limit) {
        Ok(mut lines) => {
            let done = tell(&mut lines, &mut told);
            lines.back().close();
            done?;
        }
        Err(NoLines { source }) => source.close(),
    }
    Ok(told)
}

#[test]
fn lines_come_whole_whatever_the_pieces_are(rt: HostRuntime) -> Result<(), Fail> {
    let alloc = rt.alloc();
    let text = b"one\n\nthree\r\nlast";
    let wanted = b"one||three\r|last|end";
    for piece in 1..9 {
        let whole = told(alloc, text.as_slice(), piece, &[], 6)?;
        assert!(rt; whole.as_slice() == wanted.as_slice());
    }
    Ok(())
}

#[test]
fn answers_that_are_no_line_are_told(rt: HostRuntime) -> Result<(), Fail> {
    let alloc = rt.alloc();
    let nothing = told(alloc, b"", 3, &[], 6)?;
    assert!(rt; nothing.as_slice() == b"end".as_slice());
    let ended = told(alloc, b"a\n", 3, &[], 6)?;
    assert!(rt; ended.as_slice() == b"a|end".as_slice());
    let empty = told(alloc, b"\n", 3, &[], 0)?;
    assert!(rt; empty.as_slice() == b"|end".as_slice());
    let long = told(alloc, b"123456\n1234567\nx\n", 4, &[], 6)?;
    assert!(rt; long.as_slice() == b"123456|long,long,long,long,long,long,long,".as_slice());
    let fault = told(alloc, b"ab\ncd\n", 4, &[1], 6)?;
    assert!(rt; fault.as_slice() == b"ab|fault,fault,fault,fault,fault,fault,fault,".as_slice());
    let no_room = told(alloc, b"a\n", 4, &[], 0xffff_ffff_ffff_ffff)?;
    assert!(rt; no_room.as_slice() == b"".as_slice());
    Ok(())
}

#[test]
fn a_long_line_has_the_limit_of_requests(rt: HostRuntime) -> Result<(), Fail> {
    let alloc = rt.alloc();
    let mut text = vec![in alloc; b'x'; 262_144]?;
    text.push(b'\n')?;
    let whole = told(alloc, text.as_slice(), 100_000, &[], 262_144)?;
    assert!(rt; whole.len() == 262_144 + 4);
    let long = told(alloc, text.as_slice(), 100_000, &[], 262_143)?;
    assert!(rt; long.as_slice() == b"long,long,long,long,long,long,long,long,".as_slice());
    Ok(())
}
