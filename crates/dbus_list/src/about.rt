//! What a message is, in a few words. D-Bus Specification, "Message Types".
#![tactic(auto)]

ghost use Rattle.std.specs.Prelude.{◌≡◌, option_map};
ghost use Rattle.std.specs.Str.{IsAscii};
ghost use Rattle.dbus_texts.specs.Types.{sigs};
ghost use Rattle.dbus_value_model.specs.Values.{types_of};
ghost use Rattle.dbus_value_model.specs.declared.order.Order.{Order};
ghost use Rattle.dbus_message_model.specs.Messages.{MessageTree};
ghost use Rattle.dbus_message_model.specs.declared.field_code.TheConstants.{INTERFACE};
ghost use Rattle.dbus_view.specs.Views.{Views};
ghost use Rattle.dbus_calls.specs.Events.{text_at};
ghost use Rattle.dbus_list.specs.Lines.{about, answered_part, call_part, error_part, interface_part, known_part, member_of};
ghost use Rattle.dbus_list.specs.Pairs.{call_seen};

use crate::columns::{name_cells, write_short};
use crate::known_call::AnsweredCall;
use crate::names::{error_name_of, member_of, reply_serial_of};
use dbus_call_lines::write_took;
use dbus_message_model::flag::NO_REPLY_EXPECTED;
use dbus_message_model::message_type::{ERROR, METHOD_CALL, METHOD_RETURN, SIGNAL};
use dbus_show::{Draft, write_integer};
use dbus_value_text::write_types;
use dbus_view::MessageView;

/// Appends the interface of the message of the view as it fits its cells, if it has one.
fn write_interface<D: Draft>(draft: &mut D, line: u16, view: &MessageView)
    ensures { (order : Order) (m : MessageTree) → Views view.now order m →
        D.gains draft.old (interface_part line (text_at INTERFACE m)) draft.new }
{
    if let Some(name) = view.interface() {
        write_short(draft, name, name_cells(line));
        draft.push_code(b'.');
    }
}

/// Appends the member of the message of the view, behind its interface, and the types of the values
/// of its body.
fn write_member<D: Draft>(draft: &mut D, line: u16, view: &MessageView, types: &[u8])
    requires ascii { IsAscii types.now }
    ensures { (order : Order) (m : MessageTree) → Views view.now order m →
        types.now ≡ sigs (types_of m.body) → D.gains draft.old (member_of line m) draft.new }
{
    write_interface(draft, line, view);
    draft.push_str(member_of(view));
    draft.push_code(b'(');
    write_types(draft, types);
    draft.push_code(b')');
}

/// Appends what a call is.
fn write_call<D: Draft>(draft: &mut D, line: u16, view: &MessageView, types: &[u8])
    requires ascii { IsAscii types.now }
    ensures { (order : Order) (m : MessageTree) → Views view.now order m →
        types.now ≡ sigs (types_of m.body) → D.gains draft.old (call_part line m) draft.new }
{
    write_member(draft, line, view, types);
    if view.flags() & NO_REPLY_EXPECTED != 0 {
        draft.push_str(" no reply wanted");
    }
}

/// Appends the number and the member of a call, and how long its reply took.
fn write_known<D: Draft>(draft: &mut D, call: AnsweredCall<'_>)
    ensures { D.gains draft.old (known_part (call_seen call.entry)) draft.new }
{
    draft.push_str("#");
    write_integer(draft, call.number);
    draft.push_str(" ");
    draft.push_str(call.member);
    write_took(draft, call.took);
}

/// Appends which call a reply is to.
fn write_answered<D: Draft>(draft: &mut D, answered: Option<AnsweredCall<'_>>, view: &MessageView)
    ensures { (order : Order) (m : MessageTree) → Views view.now order m →
        D.gains draft.old (answered_part (option_map call_seen answered.entry) m) draft.new }
{
    match answered {
        Some(call) => write_known(draft, call),
        None => {
            draft.push_str("serial ");
            write_integer(draft, reply_serial_of(view));
        }
    }
}

/// Appends what an error is.
fn write_error<D: Draft>(
    draft: &mut D,
    line: u16,
    answered: Option<AnsweredCall<'_>>,
    view: &MessageView,
)
    ensures { (order : Order) (m : MessageTree) → Views view.now order m →
        D.gains draft.old (error_part line (option_map call_seen answered.entry) m) draft.new }
{
    write_short(draft, error_name_of(view), name_cells(line));
    draft.push_str(" to ");
    write_answered(draft, answered, view);
}

/// Appends what the message of the view is, whose values have these types, and which answers this
/// call.
pub(crate) fn write_about<D: Draft>(
    draft: &mut D,
    line: u16,
    answered: Option<AnsweredCall<'_>>,
    view: &MessageView,
    types: &[u8],
)
    requires ascii { IsAscii types.now }
    ensures { (order : Order) (m : MessageTree) → Views view.now order m →
        types.now ≡ sigs (types_of m.body) →
        D.gains draft.old (about line (option_map call_seen answered.entry) m) draft.new }
{
    match view.kind() {
        METHOD_CALL => write_call(draft, line, view, types),
        METHOD_RETURN => {
            draft.push_str("reply to ");
            write_answered(draft, answered, view);
        }
        ERROR => {
            draft.push_str("error ");
            write_error(draft, line, answered, view);
        }
        SIGNAL => {
            draft.push_str("signal ");
            write_member(draft, line, view, types);
        }
        kind => {
            draft.push_str("type ");
            write_integer(draft, kind);
            draft.push_str(" ");
            write_member(draft, line, view, types);
        }
    }
}
