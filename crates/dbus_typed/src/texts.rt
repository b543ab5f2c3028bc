//! Texts. D-Bus Specification, "Basic types".
#![tactic(auto)]

ghost use Rattle.std.specs.Prelude.{refl};
ghost use Rattle.dbus_texts.specs.Types.{STRING, OBJECT_PATH, SIGNATURE, TextType};
ghost use Rattle.dbus_value_model.specs.Values.{TextValue};

use crate::from_value::FromValue;
use dbus_values::ValueView;

/// An OBJECT_PATH.
#[derive(Clone, Copy, Debug)]
pub struct ObjectPath<'a>(pub &'a str);

/// A SIGNATURE.
#[derive(Clone, Copy, Debug)]
pub struct Signature<'a>(pub &'a str);

impl<'a> FromValue<'a> for &'a str {
    ghost stands_for = { TextType STRING };

    ghost tree = { λ s. TextValue STRING s.now };

    ghost typed = { λ _. refl };

    fn from_value(value: ValueView<'a>) -> Option<&'a str> {
        match value {
            ValueView::Str(text) => Some(text),
            _ => None,
        }
    }
}

impl<'a> FromValue<'a> for ObjectPath<'a> {
    ghost stands_for = { TextType OBJECT_PATH };

    ghost tree = { λ s. TextValue OBJECT_PATH s.0.now };

    ghost typed = { λ _. refl };

    fn from_value(value: ValueView<'a>) -> Option<ObjectPath<'a>> {
        match value {
            ValueView::Path(text) => Some(ObjectPath(text)),
            _ => None,
        }
    }
}

impl<'a> FromValue<'a> for Signature<'a> {
    ghost stands_for = { TextType SIGNATURE };

    ghost tree = { λ s. TextValue SIGNATURE s.0.now };

    ghost typed = { λ _. refl };

    fn from_value(value: ValueView<'a>) -> Option<Signature<'a>> {
        match value {
            ValueView::Sig(text) => Some(Signature(text)),
            _ => None,
        }
    }
}
