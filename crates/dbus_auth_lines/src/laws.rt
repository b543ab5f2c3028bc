//! What holds of lines. None of these functions does anything, beyond comparing: their contracts
//! are the laws, over the definitions that the calls of the crate are specified by.
//!
//! D-Bus Specification, section "Authentication Protocol".

ghost use Rattle.std.specs.Prelude.{List, ℕ, ◌≡◌, ◌≢◌, ◌++◌, ◌↔◌, IsTrue, Some};
ghost use Rattle.dbus_auth_lines.specs.Cut.{cut, Beginning, IsLine, Unfinished, BeginsAs, cut_of};
ghost use Rattle.dbus_auth_lines.specs.ClientCommands.{ClientCommand};
ghost use Rattle.dbus_auth_lines.specs.ServerCommands.{ServerCommand};
ghost use Rattle.dbus_auth_lines.specs.Lines.{client_meaning, ended, server_meaning, client_command, server_command};
ghost use Rattle.dbus_auth_lines.specs.LineForms.{MeansToServer, MeansToClient};
ghost use Rattle.dbus_auth_lines.specs.WrittenLines.{client_text_of, server_text_of, HasClientBytes, HasServerBytes, IsExactClientLine, IsExactServerLine, ReadsBack};

use crate::lines::{ClientLine, ServerLine};
use std::alloc::Allocator;

/// Any bytes begin with a line, with one fault or with a prefix of a line, and with one of these
/// alone. A line and a fault stay, whatever follows, so they do not depend on how the bytes are
/// cut. The scan that an end of a connection is specified by finds them.
#[tactic(auto, using(crate::proofs::FirstLines::some_beginning, crate::proofs::FirstLines::one_beginning, crate::proofs::FirstLines::stays_settled, crate::proofs::FirstLines::cut_finds))]
pub fn first_line_law()
    ensures some { (k : List ℕ) → (b : Beginning) × BeginsAs k b }
    ensures one { (k : List ℕ) (a b : Beginning) → BeginsAs k a → BeginsAs k b → a ≡ b }
    ensures stands { (k more : List ℕ) (b : Beginning) → b ≢ Unfinished → BeginsAs k b →
        BeginsAs (k ++ more) b }
    ensures scan { (k : List ℕ) (b : Beginning) → BeginsAs k b → cut k ≡ cut_of b }
{}

/// What `client_text` and `server_text` write is one line, as `LineCutter` takes it, and
/// `read_client` and `read_server` give back what was written.
#[tactic(auto, using(crate::proofs::RoundTrips::client_reads_back, crate::proofs::RoundTrips::server_reads_back))]
pub fn written_line_law()
    ensures client { (c : ClientCommand) (text : List ℕ) → HasClientBytes c →
        client_text_of c ≡ Some text → ReadsBack client_meaning c text }
    ensures server { (c : ServerCommand) (text : List ℕ) → HasServerBytes c →
        server_text_of c ≡ Some text → ReadsBack server_meaning c text }
{}

/// A line that `client_text` or `server_text` writes is exact. So what they write is one line for
/// each command, and of two exact lines that say the same the bytes are the same.
#[tactic(auto, using(crate::proofs::ExactLines::one_client_line, crate::proofs::ExactLines::one_server_line))]
pub fn exact_line_law()
    ensures written_to_server { (c : ClientCommand) (line : List ℕ) → HasClientBytes c →
        client_text_of c ≡ Some (ended line) → IsExactClientLine line }
    ensures written_to_client { (c : ServerCommand) (line : List ℕ) → HasServerBytes c →
        server_text_of c ≡ Some (ended line) → IsExactServerLine line }
    ensures one_to_server { (a b : List ℕ) → IsExactClientLine a → IsExactClientLine b →
        client_meaning a ≡ client_meaning b → a ≡ b }
    ensures one_to_client { (a b : List ℕ) → IsExactServerLine a → IsExactServerLine b →
        server_meaning a ≡ server_meaning b → a ≡ b }
    ensures line_to_server { (line : List ℕ) → IsExactClientLine line → IsLine line }
    ensures line_to_client { (line : List ℕ) → IsExactServerLine line → IsLine line }
{}

/// What a line means, as `read_client` and `read_server` answer it, is what the one row of the
/// table says that has it: a name, and words after spaces. If no row has it, it is Other.
pub fn line_meaning_law()
    ensures client { (line : List ℕ) (c : ClientCommand) →
        MeansToServer line c ↔ (client_meaning line ≡ c) }
    ensures server { (line : List ℕ) (c : ServerCommand) →
        MeansToClient line c ↔ (server_meaning line ≡ c) }
{}

/// `==` of two lines of clients: they are equal exactly if they say the same.
pub fn equal_client_lines<A: Allocator>(a: &ClientLine<A>, b: &ClientLine<A>) -> bool
    ensures { IsTrue result ↔ (client_command a.now ≡ client_command b.now) }
{
    a == b
}

/// `==` of two lines of servers: they are equal exactly if they say the same.
pub fn equal_server_lines<A: Allocator>(a: &ServerLine<A>, b: &ServerLine<A>) -> bool
    ensures { IsTrue result ↔ (server_command a.now ≡ server_command b.now) }
{
    a == b
}
