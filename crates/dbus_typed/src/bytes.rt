//! Arrays of BYTE. D-Bus Specification, "Container types".
#![tactic(auto)]

ghost use Rattle.std.specs.Prelude.{refl};
ghost use Rattle.dbus_texts.specs.Types.{BYTE, NumberType, ArrayType};
ghost use Rattle.dbus_value_model.specs.Values.{ArrayValue};
ghost use Rattle.dbus_value_model.specs.ValueViews.{byte_values};

use crate::from_value::FromValue;
use dbus_values::ValueView;

impl<'a> FromValue<'a> for &'a [u8] {
    ghost stands_for = { ArrayType (NumberType BYTE) };

    ghost tree = { λ bytes. ArrayValue (NumberType BYTE) (byte_values bytes.now) };

    ghost typed = { λ _. refl };

    fn from_value(value: ValueView<'a>) -> Option<&'a [u8]> {
        match value {
            ValueView::Bytes(bytes) => Some(bytes),
            _ => None,
        }
    }
}
