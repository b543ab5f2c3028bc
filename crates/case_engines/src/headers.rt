//! What a view gives of a message's header, and of the texts among its values; and what a message
//! gives of its header fields.

use case_questions::Reply;
use dbus_message::{Message, MessageView};
use dbus_view::ArgView;
use std::alloc::Allocator;
use std::str;

// More values than a body has.
const MOST_VALUES: usize = 256;

/// Adds the code of a type.
pub(crate) fn say_code(reply: &mut Reply, code: u8) {
    reply.word(str::from_utf8(&[code]).unwrap_or("?"));
}

/// Adds the known fields of a message by their names: the texts, then the numbers.
pub(crate) fn say_names<A: Allocator>(reply: &mut Reply, message: &Message<A>) {
    reply.found_text(message.path());
    reply.found_text(message.interface());
    reply.found_text(message.member());
    reply.found_text(message.error_name());
    reply.found_text(message.destination());
    reply.found_text(message.sender());
    reply.found_text(message.signature());
    reply.found(message.reply_serial());
    reply.found(message.unix_fds());
}

// A value: where it is, and what is seen of it.
fn say_value(reply: &mut Reply, view: &MessageView, n: usize) {
    if let Some(place) = view.arg_place(n) {
        say_code(reply, place.code);
        reply.number(place.start as u64);
        reply.number(place.length as u64);
    }
    match view.arg(n) {
        Some(ArgView::Str(text)) => reply.spelled("s", text.as_bytes()),
        Some(ArgView::Path(text)) => reply.spelled("o", text.as_bytes()),
        Some(ArgView::Sig(text)) => reply.spelled("g", text.as_bytes()),
        Some(ArgView::Other(code)) => say_code(reply, code),
        None => reply.word("none"),
    }
}

/// Adds what a view gives of the header, of each value of the body, and of values that are not
/// there.
pub(crate) fn say_header(reply: &mut Reply, view: &MessageView) {
    reply.variant(&view.order());
    reply.number(u64::from(view.kind()));
    reply.number(u64::from(view.flags()));
    reply.number(u64::from(view.serial()));
    reply.found(view.reply_serial());
    reply.found_text(view.path());
    reply.found_text(view.interface());
    reply.found_text(view.member());
    reply.found_text(view.error_name());
    reply.found_text(view.destination());
    reply.found_text(view.sender());
    for n in 0..MOST_VALUES {
        say_value(reply, view, n);
        if view.arg(n).is_none() {
            break;
        }
    }
    say_value(reply, view, usize::MAX);
}
