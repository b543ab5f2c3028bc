//! What takes the lines of a side.
#![tactic(auto)]

ghost use Rattle.std.specs.Prelude.{◌≡◌, ◌∷◌, ◌++◌, List, []};
ghost use Rattle.dbus_auth_lines.specs.Lines.{client_command, server_command, client_meaning, server_meaning};
ghost use Rattle.dbus_handshake_input.specs.Heard.{HeardLine, heard_line};
ghost use Rattle.dbus_handshake_input.specs.declared.side.Side.TheVariants.{Client, Server};

use dbus_auth_lines::{ClientLine, ServerLine};
use std::alloc::Allocator;

/// What takes the lines of a side, each of them a command of it, one after the other. A line has no
/// CR LF, and its offset counts from the first byte that the side sent.
pub trait LineVisitor {
    // What it heard, and after that.
    ghost hears: { Self → List HeardLine → Self → Type 0 };

    /// Takes a line of a client, with what it says.
    fn client_line<A: Allocator>(&mut self, offset: usize, line: &[u8], said: &ClientLine<A>)
        requires { client_command said.now ≡ client_meaning line.now }
        ensures { hears self.old (heard_line Client offset line.now ∷ []) self.new };

    /// Takes a line of a server, with what it says.
    fn server_line<A: Allocator>(&mut self, offset: usize, line: &[u8], said: &ServerLine<A>)
        requires { server_command said.now ≡ server_meaning line.now }
        ensures { hears self.old (heard_line Server offset line.now ∷ []) self.new };

    // What is left alone hears nothing.
    ghost nothing: { (a : Self) → hears a [] a };

    // What hears some lines and then others hears all of them.
    ghost joins: { (a b c : Self) (s t : List HeardLine) → hears a s b → hears b t c →
        hears a (s ++ t) c };
}
