//! The first line of a window, with as many pieces of the source as it takes.

ghost use Rattle.std.specs.Prelude.{◌≡◌, ◌<◌, ◌≤◌};
ghost use Rattle.cide_io.specs.Faults.{Rose};
ghost use Rattle.cide_io.specs.Known.{preceded};
ghost use Rattle.source_lines.specs.Buffers.{IsFound};

use crate::reads::Found;
use crate::windows::Window;
use cide_io::Source;

/// Takes bytes behind those of the window until its first line is whole or too long, or nothing is left.
pub fn first_line<S: Source>(window: &mut Window, source: &mut S, limit: usize) -> Found
    requires { limit < window.old.size }
    ensures found { IsFound (preceded window.old.bytes (S.left source.old)) limit window.new.bytes (S.left source.new) result }
    ensures same { preceded window.old.bytes (S.left source.old) ≡ preceded window.new.bytes (S.left source.new) }
    ensures size { window.new.size ≡ window.old.size }
    ensures later { S.faults source.old ≤ S.faults source.new }
    ensures cause { result ≡ Found.ReadFault → Rose (S.faults source.old) (S.faults source.new) }
{
    let mut seen = 0;
    'pieces: loop {
        let len = window.bytes().len();
        if let Some(end) = window.newline(seen) {
            if limit < end {
                return Found::TooLong;
            }
            return Found::Line(end, end + 1);
        }
        if limit < len {
            return Found::TooLong;
        }
        window.make_room();
        let count = match window.fill(source) {
            Ok(count) => count,
            Err(_) => return Found::ReadFault,
        };
        if count == 0 {
            if len == 0 {
                return Found::End;
            }
            return Found::Line(len, len);
        }
        seen = len;
    }
}
