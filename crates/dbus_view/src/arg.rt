//! One value of a body, found by its number. D-Bus Specification, "Message Format".
#![tactic(auto)]

ghost use Rattle.std.specs.Prelude.{◌≡◌, ◌<◌, ◌-◌, ℕ, List, length, None, MatchOption};
ghost use Rattle.dbus_types.specs.SignatureCodes.{first_code};
ghost use Rattle.dbus_value_model.specs.Values.{ValueTree, ValueTrees, type_of};
ghost use Rattle.dbus_value_model.specs.declared.order.Order.{Order};
ghost use Rattle.dbus_message_model.specs.KnownFields.{body_value};
ghost use Rattle.dbus_values.specs.States.{AreLeft};

use crate::arg_place::ArgPlace;
use crate::arg_view::ArgView;
use dbus_values::{ValueView, Values};

/// A value of a body, in place.
#[derive(Drop)]
pub(crate) struct Arg<'a> {
    /// The offset after it.
    pub after: usize,
    /// The first code of its type.
    pub code: u8,
    /// How it is seen.
    pub seen: ValueView<'a>,
}

ghost use Rattle.dbus_view.specs.Bodies.{IsArg, IsNumbered, IsFound, IsTextPlace};

/// Value `n` of those that are left, counted from 0, if there is one. Those before it are passed
/// over.
pub(crate) fn arg_at<'a>(values: Values<'a>, n: usize) -> Option<Arg<'a>>
    ensures { (xs : ValueTrees) (rest : List ℕ) → AreLeft values.entry xs rest →
        MatchOption result (body_value n xs ≡ None) (λ a. IsNumbered values.entry n xs a) }
{
    let mut left = values;
    for _number in 0..n {
        let _passed = left.next()?;
    }
    let code = left.first_code()?;
    let seen = left.next()?;
    Some(Arg {
        after: left.at(),
        code,
        seen,
    })
}

/// What is seen of the value.
pub(crate) fn view_of(arg: Arg<'_>) -> ArgView<'_>
    ensures { (order : Order) (bytes : List ℕ) (from : ℕ) (x : ValueTree) → IsFound order bytes from x arg.entry → IsArg result x }
{
    match arg.seen {
        ValueView::Str(text) => ArgView::Str(text),
        ValueView::Path(text) => ArgView::Path(text),
        ValueView::Sig(text) => ArgView::Sig(text),
        _ => ArgView::Other(arg.code),
    }
}

/// The first code of the value's type, and where its text is if it is one.
pub(crate) fn place_of(arg: Arg<'_>) -> ArgPlace
    requires { (order : Order) × (bytes : List ℕ) × (from : ℕ) × (x : ValueTree) × IsFound order bytes from x arg }
    ensures { (order : Order) (bytes : List ℕ) (from : ℕ) (x : ValueTree) → IsFound order bytes from x arg.entry →
        (first_code (type_of x) ≡ result.code) × IsTextPlace bytes from x result }
{
    match arg.seen {
        ValueView::Str(text) => text_place(arg.code, arg.after, text),
        ValueView::Path(text) => text_place(arg.code, arg.after, text),
        ValueView::Sig(text) => text_place(arg.code, arg.after, text),
        _ => ArgPlace {
            code: arg.code,
            start: 0,
            length: 0,
        },
    }
}

/// The place of a text, after which come one byte and the offset `after`.
fn text_place(code: u8, after: usize, text: &str) -> ArgPlace
    requires { length text.now < after }
    ensures { result ≡ record { code = code; start = after - 1 - length text.now; length = length text.now } }
{
    ArgPlace {
        code,
        start: after - 1 - text.len(),
        length: text.len(),
    }
}
