//! What rules see of the values of a body.
#![tactic(auto)]

ghost use Rattle.std.specs.Prelude.{Some, IfSome};
ghost use Rattle.dbus_value_model.specs.Values.{ValueTree, ValueTrees};
ghost use Rattle.dbus_value_model.specs.declared.order.Order.{Order};
ghost use Rattle.dbus_message_model.specs.KnownFields.{body_value};
ghost use Rattle.dbus_message_model.specs.Messages.{MessageTree};
ghost use Rattle.dbus_values.specs.Seen.{IsSeen};
ghost use Rattle.dbus_view.specs.Views.{Views};
ghost use Rattle.dbus_match.specs.Arguments.{AreArguments, AreNoted, IsArgument};

use arrayvec::ArrayVec;
use dbus_values::ValueView;
use dbus_view::{ArgView, MessageView};

/// The arguments that keys name: 0 to 63.
const ARGUMENTS: usize = 64;

/// A value of a body, as rules see it.
#[derive(Clone, Copy)]
pub(crate) enum Argument<'a> {
    /// A STRING.
    Str(&'a str),
    /// An OBJECT_PATH.
    Path(&'a str),
    /// Another value, or none.
    Other,
}

/// What unused places of an `ArrayVec` hold.
impl<'a> Default for Argument<'a> {
    fn default() -> Argument<'a> {
        Argument::Other
    }
}

/// The first values of a body, as far as rules ask for them.
pub(crate) type Arguments<'a> = ArrayVec<Argument<'a>, ARGUMENTS>;

/// What rules see of the value.
fn argument_of(seen: ValueView<'_>) -> Argument<'_>
    ensures { (x : ValueTree) → IsSeen seen.entry x → IsArgument result (Some x) }
{
    match seen {
        ValueView::Str(text) => Argument::Str(text),
        ValueView::Path(text) => Argument::Path(text),
        _ => Argument::Other,
    }
}

/// The values of the body that rules may ask for.
pub(crate) fn arguments_of<'a>(view: &MessageView<'a>) -> Arguments<'a>
    ensures { AreNoted view.now result.items }
{
    let mut left = view.body();
    let mut arguments = ArrayVec::new();
    for _number in 0..ARGUMENTS {
        match left.next() {
            Some(seen) => arguments.push(argument_of(seen)),
            None => return arguments,
        }
    }
    arguments
}

/// Argument `n` of the first values of some, if it is one of them.
fn argument_in<'a>(arguments: &[Argument<'a>], n: usize) -> Option<Argument<'a>>
    ensures { (xs : ValueTrees) → AreArguments arguments.now xs →
        IfSome result (λ a. IsArgument a (body_value n xs)) }
{
    if n < arguments.len() {
        Some(arguments[n])
    } else {
        None
    }
}

/// Value `n` of the body. The values before it are passed over.
fn argument_at<'a>(view: &MessageView<'a>, n: usize) -> Argument<'a>
    ensures { (order : Order) (m : MessageTree) → Views view.now order m →
        IsArgument result (body_value n m.body) }
{
    match view.arg(n) {
        Some(ArgView::Str(text)) => Argument::Str(text),
        Some(ArgView::Path(text)) => Argument::Path(text),
        _ => Argument::Other,
    }
}

/// Value `n` of the body, if the first of its values, or none of them, are noted.
pub(crate) fn seen<'a>(view: &MessageView<'a>, noted: &[Argument<'a>], n: usize) -> Argument<'a>
    requires { AreNoted view.now noted.now }
    ensures { (order : Order) (m : MessageTree) → Views view.now order m →
        IsArgument result (body_value n m.body) }
{
    match argument_in(noted, n) {
        Some(argument) => argument,
        None => argument_at(view, n),
    }
}
