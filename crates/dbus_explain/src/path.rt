//! The path to a value in a message.
#![tactic(auto)]

ghost use Rattle.std.specs.Prelude.{◌++◌, codes};
ghost use Rattle.dbus_show.specs.ShownValues.{quoted};
ghost use Rattle.dbus_explain.specs.Names.{step_text};
ghost use Rattle.dbus_explain.specs.declared.path.PathStep.TheVariants.{Number};

use dbus_show::{Draft, write_integer, write_quoted};

/// A step of a path, from a value to one in it.
#[derive(Clone, Copy)]
pub(crate) enum PathStep<'a> {
    /// To the element of an array or the value of a struct that has this number, from 0.
    Number(usize),
    /// To the element of an array that is a dict entry of this key.
    Keyed(&'a str),
    /// To the key of a dict entry.
    Key,
    /// To its value.
    Value,
    /// To the value of a variant.
    Variant,
}

/// Appends a step.
pub(crate) fn write_step<D: Draft>(draft: &mut D, step: PathStep<'_>)
    ensures { D.gains draft.old (step_text step.entry) draft.new }
{
    match step {
        PathStep::Number(number) => write_number(draft, number),
        PathStep::Keyed(key) => write_key(draft, key),
        PathStep::Key => draft.push_str(".key"),
        PathStep::Value => draft.push_str(".value"),
        PathStep::Variant => draft.push_str(".variant"),
    }
}

// Appends a key between brackets, as a text is shown.
fn write_key<D: Draft>(draft: &mut D, key: &str)
    ensures { D.gains draft.old (codes "[" ++ (quoted key.now ++ codes "]")) draft.new }
{
    draft.push_code(b'[');
    write_quoted(draft, key);
    draft.push_code(b']');
}

// Appends a number between brackets.
fn write_number<D: Draft>(draft: &mut D, number: usize)
    ensures { D.gains draft.old (step_text (Number number)) draft.new }
{
    draft.push_code(b'[');
    write_integer(draft, number);
    draft.push_code(b']');
}
