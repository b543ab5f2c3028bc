//! Getting a value from bytes: they are validated first, and then the value is built.
#![tactic(auto)]

ghost use Rattle.std.specs.Prelude.{◌≡◌, ◌-◌, ◌≤◌, length, IfOk, IfErr};
ghost use Rattle.dbus_texts.specs.Types.{TypeTree, IsSingleType, sig};
ghost use Rattle.dbus_types.specs.SigTypes.{type_tree};
ghost use Rattle.dbus_value_model.specs.PackedBytes.{KeepsBytes};
ghost use Rattle.dbus_value_model.specs.RoundTrip.{Gets};
ghost use Rattle.dbus_value_model.specs.Specification.{specification};
ghost use Rattle.dbus_value_model.specs.Bounds.{bounds_of, bounds_with};
ghost use Rattle.dbus_value_model.specs.declared.limits.TheConstants.{DEPTH_LIMIT};
ghost use Rattle.dbus_value_model.specs.declared.fault.Refusal.TheVariants.{Memory};
ghost use Rattle.dbus_unmarshal.specs.Builds.{IsSpelledThere, Validates};

use crate::type_text::put_type;
use crate::values::build_value;
use arrayvec::ArrayVec;
use dbus_types::SigType;
use dbus_value_checker::{ValueChecker, rest_after};
use dbus_value_model::{Bounds, Fault, Got, Limits, Order, Refusal};
use dbus_walk::{MessageBytes, Spot, lengths_of};
use std::alloc::Allocator;

/// The value of a type at a place, and the place after it, as [`get_within`] says under the limits
/// of the specification.
///
/// ```rust
/// use dbus_types::SigType;
/// use dbus_value::{Got, Order, Value, get};
///
/// let spelled = b"\x04\0\0\0text\0";
/// let answer = get(alloc, spelled, 0, spelled.len(), Order::Little, &SigType::Str, 0)?;
/// if let Got::Done(Value::Str(text), end) = answer {
///     println!(rt; "{text} ends at {end}")?;
/// }
/// ```
pub fn get<A: Allocator + Copy>(
    alloc: A,
    bytes: &[u8],
    at: usize,
    end: usize,
    order: Order,
    wanted: &SigType<A>,
    depth: u8,
) -> Result<Got<A>, Refusal>
    requires at_most { at ≤ end }
    requires inside { at ≤ length bytes.now }
    requires open { depth ≤ DEPTH_LIMIT }
    requires single { IsSingleType (type_tree wanted.now) }
    ensures gets { Gets (bounds_of specification) order (DEPTH_LIMIT - depth) end
        (type_tree wanted.now) at bytes.now result }
    ensures packed { IfOk result KeepsBytes }
    ensures memory { IfErr result (λ e. e ≡ Memory →
        IsSpelledThere (bounds_of specification) order (DEPTH_LIMIT - depth) end
        (type_tree wanted.now) at bytes.now) }
{
    get_within(
        alloc,
        bytes,
        at,
        end,
        order,
        wanted,
        depth,
        Limits::specification(),
        None,
    )
}

/// The value of a type at a place, and the place after it.
///
/// `bytes` begin at the message's first byte, from which padding counts; the value begins at `at`
/// and ends at or before `end`, and `depth` containers are open around it, at most the limits'
/// depth. Every index of a file descriptor in it is below `fds`, or any if that is nothing: the
/// limits' own rule is not used. An array of BYTE comes as `Bytes`, also within the value.
///
/// `Partial` comes if the bytes end within the value and show no fault. A refusal is `Format` with
/// the first fault of the bytes, which is `FdIndex` at an index that is not below `fds`, or
/// `Memory` if an allocation failed. Nothing is allocated until all of the value is validated:
/// `Memory` comes only if the bytes spell it. D-Bus Specification, "Marshaling (Wire Format)",
/// "Basic types".
pub fn get_within<A: Allocator + Copy>(
    alloc: A,
    bytes: &[u8],
    at: usize,
    end: usize,
    order: Order,
    wanted: &SigType<A>,
    depth: u8,
    limits: Limits,
    fds: Option<u32>,
) -> Result<Got<A>, Refusal>
    requires at_most { at ≤ end }
    requires inside { at ≤ length bytes.now }
    requires open { depth ≤ limits.depth }
    requires single { IsSingleType (type_tree wanted.now) }
    ensures gets { Gets (bounds_with limits fds) order (limits.depth - depth) end
        (type_tree wanted.now) at bytes.now result }
    ensures packed { IfOk result KeepsBytes }
    ensures memory { IfErr result (λ e. e ≡ Memory →
        IsSpelledThere (bounds_with limits fds) order (limits.depth - depth) end
        (type_tree wanted.now) at bytes.now) }
{
    let mut text = ArrayVec::new();
    put_type(&mut text, wanted);
    let types = text.as_slice();
    let mut table = [0; 255];
    let spot = Spot {
        at,
        types,
        lengths: lengths_of(types, &mut table),
        depth_left: limits.depth - depth,
    };
    match is_whole(bytes, order, &spot, end, limits.bounds_with(fds)) {
        Ok(true) => {}
        Ok(false) => return Ok(Got::Partial),
        Err(fault) => return Err(Refusal::Format(fault)),
    }
    match build_value(alloc, &MessageBytes { bytes, order }, &spot, wanted) {
        Ok((value, next)) => Ok(Got::Done(value, next)),
        Err(_) => Err(Refusal::Memory),
    }
}

/// Whether the value that is wanted at a spot is there whole, up to `end` at the latest. If it is
/// not, the bytes end within it and show no fault. The checker is large: it is here, so that it is
/// gone when the value is built.
///
/// `Err` with the first fault that it shows. D-Bus Specification, "Marshaling (Wire Format)".
#[inline(never)]
fn is_whole(
    bytes: &[u8],
    order: Order,
    spot: &Spot<'_>,
    end: usize,
    bounds: Bounds,
) -> Result<bool, Fault>
    requires at_most { spot.now.at ≤ end }
    requires inside { spot.now.at ≤ length bytes.now }
    requires few { spot.now.depth_left ≤ 64 }
    requires single { (t : TypeTree) × IsSingleType t × (spot.now.types.now ≡ sig t) }
    ensures { (t : TypeTree) → IsSingleType t → spot.now.types.now ≡ sig t →
        Validates bounds order spot.now.depth_left end t spot.now.at bytes.now result }
{
    let mut values = ValueChecker::new();
    values.begin(bounds, order, spot.at, end, spot.types, spot.depth_left);
    values.run(rest_after(bytes, spot.at))?;
    Ok(!values.is_live())
}
