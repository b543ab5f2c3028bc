//! Numbers as text, from a message's bytes. D-Bus Specification, "Marshaling (Wire Format)".
#![tactic(auto)]

ghost use Rattle.std.specs.Prelude.{◌≡◌, ◌+◌, ◌≤◌, length, take, drop};
ghost use Rattle.dbus_texts.specs.Types.{NumberCode, number_code};
ghost use Rattle.dbus_types.specs.Alignments.{width};
ghost use Rattle.dbus_value_model.specs.Reading.{number_of};
ghost use Rattle.dbus_show.specs.ShownValues.{number_text};

use dbus_show::{Draft, write_hex, write_integer};
use dbus_value_model::Order;

/// Appends the number at `at`, of the type that has this code, as it is shown: an integer in
/// decimal, a BOOLEAN as `true` or `false`, a DOUBLE as 16 hexadecimal digits. D-Bus Specification,
/// "Basic types".
pub fn write_number_at<D: Draft>(draft: &mut D, bytes: &[u8], at: usize, order: Order, code: u8)
    requires { (k : NumberCode) → number_code k ≡ code →
        at + width k ≤ length bytes.now }
    ensures { (k : NumberCode) → number_code k ≡ code →
        D.gains draft.old (number_text k (number_of order (take (width k) (drop at bytes.now))))
        draft.new }
{
    match code {
        b'y' => write_integer(draft, bytes[at]),
        b'b' => draft.push_str(if order.u32_at(bytes, at) == 0 {
            "false"
        } else {
            "true"
        }),
        b'n' => write_integer(draft, order.u16_at(bytes, at).cast_signed()),
        b'q' => write_integer(draft, order.u16_at(bytes, at)),
        b'i' => write_integer(draft, order.u32_at(bytes, at).cast_signed()),
        b'u' => write_integer(draft, order.u32_at(bytes, at)),
        b'x' => write_integer(draft, order.u64_at(bytes, at).cast_signed()),
        b't' => write_integer(draft, order.u64_at(bytes, at)),
        b'd' => write_hex(draft, &order.u64_at(bytes, at).to_be_bytes()),
        b'h' => write_integer(draft, order.u32_at(bytes, at)),
        _ => {}
    }
}
