//! DOUBLEs as JSON. RFC 8259, section 6.
#![tactic(auto)]

ghost use Rattle.std.specs.Prelude.{◌≡◌, ◌^◌, true, from_bits};
ghost use Rattle.std.specs.Float.{binary64, float_is_finite};
ghost use Rattle.std.specs.Option.{SomeIff};
ghost use Rattle.dbus_json.specs.JsonValues.{IsDouble};
ghost use Rattle.dbus_value_text.specs.Gaining.{GainsSome};

use dbus_show::{Draft, write_hex};
use ryu::Buffer;

/// The bit of a DOUBLE's sign.
const SIGN: u64 = 1 << 63;

/// The bits of positive infinity. Above them, the sign aside, are the NaNs.
const INFINITY: u64 = 0x7ff0_0000_0000_0000;

/// The float that has the bits of a DOUBLE, if it is finite: neither an infinity nor a NaN. D-Bus
/// Specification, "Basic types".
pub fn finite(bits: u64) -> Option<f64>
    ensures { SomeIff result (float_is_finite (from_bits binary64 bits) ≡ true) (from_bits binary64 bits) }
{
    if bits % SIGN > INFINITY {
        return None;
    }
    let number = f64::from_bits(bits);
    if number.is_finite() {
        Some(number)
    } else {
        None
    }
}

/// Appends a DOUBLE.
pub(crate) fn write_double<D: Draft>(draft: &mut D, bits: u64)
    ensures { GainsSome D.gains draft.old (IsDouble bits) draft.new }
{
    match finite(bits) {
        Some(number) => draft.push_str(Buffer::new().format_finite(number)),
        None => {
            draft.push_code(b'"');
            write_hex(draft, &bits.to_be_bytes());
            draft.push_code(b'"');
        }
    }
}
