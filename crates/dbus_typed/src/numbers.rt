//! Numbers. D-Bus Specification, "Basic types".
#![tactic(auto)]

ghost use Rattle.std.specs.Prelude.{refl, if◌then◌else◌};
ghost use Rattle.std.specs.Int.{cast_unsigned, w16, w32, w64};
ghost use Rattle.dbus_texts.specs.Types.{BYTE, BOOLEAN, INT16, UINT16, INT32, UINT32, INT64, UINT64, DOUBLE, UNIX_FD, NumberType};
ghost use Rattle.dbus_value_model.specs.Values.{NumberValue};

use crate::from_value::FromValue;
use dbus_values::ValueView;

/// A DOUBLE, as its 64 bits.
#[derive(Clone, Copy, Debug, PartialEq, Eq)]
pub struct Double(pub u64);

/// A UNIX_FD, as the index of a descriptor among those of its message.
#[derive(Clone, Copy, Debug, PartialEq, Eq)]
pub struct UnixFd(pub u32);

impl<'a> FromValue<'a> for u8 {
    ghost stands_for = { NumberType BYTE };

    ghost tree = { λ n. NumberValue BYTE n };

    ghost typed = { λ _. refl };

    fn from_value(value: ValueView<'a>) -> Option<u8> {
        match value {
            ValueView::Byte(number) => Some(number),
            _ => None,
        }
    }
}

impl<'a> FromValue<'a> for bool {
    ghost stands_for = { NumberType BOOLEAN };

    ghost tree = { λ b. NumberValue BOOLEAN (if b then 1 else 0) };

    ghost typed = { λ _. refl };

    fn from_value(value: ValueView<'a>) -> Option<bool> {
        match value {
            ValueView::Bool(is_so) => Some(is_so),
            _ => None,
        }
    }
}

impl<'a> FromValue<'a> for i16 {
    ghost stands_for = { NumberType INT16 };

    ghost tree = { λ z. NumberValue INT16 (cast_unsigned w16 z) };

    ghost typed = { λ _. refl };

    fn from_value(value: ValueView<'a>) -> Option<i16> {
        match value {
            ValueView::I16(number) => Some(number),
            _ => None,
        }
    }
}

impl<'a> FromValue<'a> for u16 {
    ghost stands_for = { NumberType UINT16 };

    ghost tree = { λ n. NumberValue UINT16 n };

    ghost typed = { λ _. refl };

    fn from_value(value: ValueView<'a>) -> Option<u16> {
        match value {
            ValueView::U16(number) => Some(number),
            _ => None,
        }
    }
}

impl<'a> FromValue<'a> for i32 {
    ghost stands_for = { NumberType INT32 };

    ghost tree = { λ z. NumberValue INT32 (cast_unsigned w32 z) };

    ghost typed = { λ _. refl };

    fn from_value(value: ValueView<'a>) -> Option<i32> {
        match value {
            ValueView::I32(number) => Some(number),
            _ => None,
        }
    }
}

impl<'a> FromValue<'a> for u32 {
    ghost stands_for = { NumberType UINT32 };

    ghost tree = { λ n. NumberValue UINT32 n };

    ghost typed = { λ _. refl };

    fn from_value(value: ValueView<'a>) -> Option<u32> {
        match value {
            ValueView::U32(number) => Some(number),
            _ => None,
        }
    }
}

impl<'a> FromValue<'a> for i64 {
    ghost stands_for = { NumberType INT64 };

    ghost tree = { λ z. NumberValue INT64 (cast_unsigned w64 z) };

    ghost typed = { λ _. refl };

    fn from_value(value: ValueView<'a>) -> Option<i64> {
        match value {
            ValueView::I64(number) => Some(number),
            _ => None,
        }
    }
}

impl<'a> FromValue<'a> for u64 {
    ghost stands_for = { NumberType UINT64 };

    ghost tree = { λ n. NumberValue UINT64 n };

    ghost typed = { λ _. refl };

    fn from_value(value: ValueView<'a>) -> Option<u64> {
        match value {
            ValueView::U64(number) => Some(number),
            _ => None,
        }
    }
}

impl<'a> FromValue<'a> for Double {
    ghost stands_for = { NumberType DOUBLE };

    ghost tree = { λ x. NumberValue DOUBLE x.0 };

    ghost typed = { λ _. refl };

    fn from_value(value: ValueView<'a>) -> Option<Double> {
        match value {
            ValueView::Double(bits) => Some(Double(bits)),
            _ => None,
        }
    }
}

impl<'a> FromValue<'a> for UnixFd {
    ghost stands_for = { NumberType UNIX_FD };

    ghost tree = { λ x. NumberValue UNIX_FD x.0 };

    ghost typed = { λ _. refl };

    fn from_value(value: ValueView<'a>) -> Option<UnixFd> {
        match value {
            ValueView::Fd(index) => Some(UnixFd(index)),
            _ => None,
        }
    }
}
