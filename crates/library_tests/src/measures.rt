//! What a measure answers of values at the limit of messages and of arrays, beside a size if both
//! answer.

ghost use Rattle.std.specs.Prelude.{IfOk};
ghost use Rattle.dbus_value_model.specs.Sizes.{HasShortSignatures};
ghost use Rattle.dbus_value_model.specs.ValueViews.{value_tree};

use dbus_marshal::{measure, measure_all, measure_header_field, size_after};
use dbus_types::SigType;
use dbus_value_model::{Limits, Value, ValueFault};
use std::alloc::{AllocError, Global};
use std::test::*;

// Where 67,108,864 bytes begin, the most that an array may have, and where they end. Past the limit
// of messages an end is one of eight.
const LONGEST: &[(u64, u64)] = &[
    (16, 67_108_884),
    (67_108_857, 134_217_728),
    (67_108_861, 134_217_732),
    (67_108_865, 134_217_736),
    (67_108_869, 134_217_740),
    (134_217_737, 134_217_736),
];

// How long a message may be.
const LIMIT: u64 = 134_217_728;

// Below this are the offsets that may be measured from.
const OFFSETS: u64 = LIMIT + 16;

// Whether the measure of a value is `end`, and its size too: past the limit of messages it is none.
fn ends_at(value: &Value, at: u64, end: u64) -> bool
    requires { HasShortSignatures (value_tree value.now) }
{
    let size = if end > LIMIT {
        Err(ValueFault::TooLong)
    } else {
        Ok(end)
    };
    at < OFFSETS
        && measure(value, at, Limits::specification()) == Some(end)
        && (at > LIMIT || size_after(value, at) == size)
}

// What a header's field has after its code has the padding of its own type.
#[test]
fn ends_of_header_fields(rt: HostRuntime) {
    assert!(rt;
        measure_header_field(&Value::<Global>::U64(0), 13, Limits::specification()) == Some(32)
    );
    let empty = Value::Array(SigType::U64, Vec::new(rt.alloc()));
    assert!(rt; measure_header_field(&empty, 16, Limits::specification()) == Some(32));
}

// Past the limit of messages an end is one of eight.
#[test]
fn values_past_the_limit(rt: HostRuntime) {
    let values: [Value; 2] = [Value::U64(1), Value::Byte(1)];
    assert!(rt; measure_all(&values, 134_217_720, Limits::specification()) == Some(134_217_729));
    assert!(rt; measure_all(&values, 134_217_740, Limits::specification()) == Some(134_217_737));
}

// An array of this many bytes.
fn bytes(alloc: Global, count: usize) -> Result<Value, AllocError>
    ensures { IfOk result (λ v. HasShortSignatures (value_tree v)) }
{
    Ok(Value::Bytes(vec![in alloc; 0; count]?))
}

// Whether no measure and no size is answered, wherever the value begins.
fn has_no_end(value: &Value) -> bool
    requires { HasShortSignatures (value_tree value.now) }
{
    measure(value, 0, Limits::specification()).is_none()
        && measure(value, 134_217_743, Limits::specification()).is_none()
        && size_after(value, 0) == Err(ValueFault::ArrayTooLong)
}

#[test]
fn the_longest_array_and_one_of_a_byte_more(rt: HostRuntime) -> Result<(), Fail> {
    let longest = bytes(rt.alloc(), 67_108_864)?;
    for (at, end) in LONGEST {
        assert!(rt; ends_at(&longest, *at, *end), "from {at}");
    }
    assert!(rt; has_no_end(&bytes(rt.alloc(), 67_108_865)?));
    Ok(())
}
