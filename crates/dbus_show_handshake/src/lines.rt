//! A line of text for each line of a handshake.
#![tactic(auto)]

ghost use Rattle.std.specs.List.{flat_map};
ghost use Rattle.dbus_show_handshake.specs.ShownHandshakes.{line_start, line_text, size_line};
ghost use Rattle.dbus_show_handshake.specs.ShownLaws as laws;

use crate::sentences::{write_client, write_server};
use crate::shown::write_shown;
use dbus_auth_lines::{ClientLine, ServerLine};
use dbus_handshake_input::{HandshakeSize, LineVisitor};
use dbus_show::{Draft, write_integer};
use std::alloc::Allocator;

/// Appends a line of text to a draft for each line of a handshake that it takes: the offset, the
/// line and what it says.
///
/// ```text
/// 1: "AUTH EXTERNAL 31303030": asks for "EXTERNAL" as "1000"
/// ```
#[derive(Drop)]
pub struct ShownLines<D>(pub D);

impl<D: Draft> LineVisitor for ShownLines<D> {
    ghost hears = { λ a lines b. D.gains a.0 (flat_map line_text lines) b.0 };

    fn client_line<A: Allocator>(&mut self, offset: usize, line: &[u8], said: &ClientLine<A>) {
        write_line_start(&mut self.0, offset, line);
        write_client(&mut self.0, said);
        self.0.push_code(b'\n');
    }

    fn server_line<A: Allocator>(&mut self, offset: usize, line: &[u8], said: &ServerLine<A>) {
        write_line_start(&mut self.0, offset, line);
        write_server(&mut self.0, said);
        self.0.push_code(b'\n');
    }

    ghost nothing = { λ a. D.nothing a.0 };

    ghost joins = { laws.joins D.gains D.joins };
}

/// Appends the offset and the line.
fn write_line_start<D: Draft>(draft: &mut D, offset: usize, line: &[u8])
    ensures { D.gains draft.old (line_start offset line.now) draft.new }
{
    write_integer(draft, offset);
    draft.push_str(": ");
    write_shown(draft, line);
    draft.push_str(": ");
}

/// Appends the number of lines and of bytes of a handshake, as a line of text: `ok 3 lines 54
/// bytes`.
pub fn write_size<D: Draft>(draft: &mut D, size: HandshakeSize)
    ensures { D.gains draft.old (size_line size) draft.new }
{
    draft.push_str("ok ");
    write_integer(draft, size.lines);
    draft.push_str(" lines ");
    write_integer(draft, size.bytes);
    draft.push_str(" bytes\n");
}
