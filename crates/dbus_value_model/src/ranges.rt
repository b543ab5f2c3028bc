//! The numbers of a value are in the ranges of their types.
#![tactic(auto)]

ghost use Rattle.dbus_texts.specs.Types.{IsBasic};
ghost use Rattle.dbus_value_model.specs.Verdicts.{HoldsNumbers, HoldNumbers};
ghost use Rattle.dbus_value_model.specs.Values.{type_of};
ghost use Rattle.dbus_value_model.specs.ValueViews.{value_tree, byte_values};

use crate::value::Value;
use std::alloc::Allocator;

/// Shows that a number is in the range of its type. It looks at it and does nothing with it: a
/// clause on the value's tree cannot know the range otherwise. D-Bus Specification, "Basic types".
pub fn basic_in_range<A: Allocator>(value: &Value<A>)
    ensures { IsBasic (type_of (value_tree value.now)) → HoldsNumbers (value_tree value.now) }
{
    match value {
        Value::Byte(n) => {
            let _n = *n;
        }
        Value::Bool(b) => {
            let _b = *b;
        }
        Value::I16(n) => {
            let _n = n.cast_unsigned();
        }
        Value::U16(n) => {
            let _n = *n;
        }
        Value::I32(n) => {
            let _n = n.cast_unsigned();
        }
        Value::U32(n) | Value::Fd(n) => {
            let _n = *n;
        }
        Value::I64(n) => {
            let _n = n.cast_unsigned();
        }
        Value::U64(n) | Value::Double(n) => {
            let _n = *n;
        }
        _ => {}
    }
}

/// Shows that bytes are numbers of their type.
pub fn bytes_in_range(bytes: &[u8])
    ensures { HoldNumbers (byte_values bytes.now) }
{
    let _count = bytes.len();
}
