//! What a line says, in words.
#![tactic(auto)]

ghost use Rattle.std.specs.Prelude.{◌++◌, map};
ghost use Rattle.std.specs.List.{flat_map};
ghost use Rattle.dbus_auth_lines.specs.Lines.{client_command, server_command};
ghost use Rattle.dbus_show_handshake.specs.ShownHandshakes.{client_sentence, offer, response_words, server_sentence, shown};

use crate::shown::write_shown;
use dbus_auth_lines::{ClientLine, ServerLine};
use dbus_show::{Draft, write_hex};
use std::alloc::Allocator;

/// Appends the initial response of a client, if it has one.
fn write_response<D: Draft>(draft: &mut D, response: &[u8])
    ensures { D.gains draft.old (response_words response.now) draft.new }
{
    if response.is_empty() {
        return;
    }
    draft.push_str(" as ");
    write_shown(draft, response);
}

/// Appends what a client says.
pub(crate) fn write_client<D: Draft, A: Allocator>(draft: &mut D, line: &ClientLine<A>)
    ensures { D.gains draft.old (client_sentence (client_command line.now)) draft.new }
{
    match line {
        ClientLine::Auth => draft.push_str("asks for mechanisms"),
        ClientLine::AuthBy { mech, response } => {
            draft.push_str("asks for ");
            write_shown(draft, mech.as_slice());
            write_response(draft, response.as_slice());
        }
        ClientLine::Cancel => draft.push_str("gives up"),
        ClientLine::Begin => draft.push_str("begins messages"),
        ClientLine::DataOf(bytes) => write_words(draft, "data ", bytes.as_slice()),
        ClientLine::Error(text) => write_words(draft, "error ", text.as_slice()),
        ClientLine::Negotiate => draft.push_str("asks for descriptors"),
        ClientLine::Other => {}
    }
}

/// Appends what a server says.
pub(crate) fn write_server<D: Draft, A: Allocator>(draft: &mut D, line: &ServerLine<A>)
    ensures { D.gains draft.old (server_sentence (server_command line.now)) draft.new }
{
    match line {
        ServerLine::Rejected(mechs) => {
            draft.push_str("refuses; offers:");
            write_offers(draft, mechs.as_slice());
        }
        ServerLine::Accepted(guid) => {
            draft.push_str("accepts, GUID ");
            write_hex(draft, &guid.0);
        }
        ServerLine::DataOf(bytes) => write_words(draft, "data ", bytes.as_slice()),
        ServerLine::Error(text) => write_words(draft, "error ", text.as_slice()),
        ServerLine::Agree => draft.push_str("agrees to descriptors"),
        ServerLine::Other => {}
    }
}

/// Appends words, and then bytes.
fn write_words<D: Draft>(draft: &mut D, words: &str, bytes: &[u8])
    ensures { D.gains draft.old (words.now ++ shown bytes.now) draft.new }
{
    draft.push_str(words);
    write_shown(draft, bytes);
}

/// Appends the mechanisms that a server offers, each after a space.
fn write_offers<D: Draft, A: Allocator>(draft: &mut D, mechs: &[Vec<u8, A>])
    ensures { D.gains draft.old (flat_map offer (map (λ mech. mech.items) mechs.now)) draft.new }
{
    for mech in mechs {
        write_words(draft, " ", mech.as_slice());
    }
}
