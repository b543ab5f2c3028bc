//! Limits out of range, and their rules on indexes of file descriptors.

use dbus_value_model::{FdRule, Limits};
use std::test::*;

// Limits over those of the specification are none.
const NO_LIMITS: &[(u32, u32, u8)] = &[
    (134_217_729, 67_108_864, 64),
    (134_217_728, 67_108_865, 64),
    (134_217_728, 67_108_864, 65),
];

#[test]
fn rules_of_limits(rt: HostRuntime) {
    let limits = Limits::specification();
    assert!(rt; limits.fds == FdRule::Any);
    let made = Limits::new(16, 8, 1).expect(&rt, "limits in range");
    assert!(rt; made.fds == FdRule::Any);
    let below = made.with_fds(FdRule::BelowCount);
    assert!(rt; below != made && below.with_fds(FdRule::Any) == made);
    assert!(rt; below.message == 16 && below.array == 8 && below.depth == 1);
    assert!(rt; FdRule::Any.index_limit(3).is_none());
    assert!(rt; FdRule::BelowCount.index_limit(3) == Some(3));
}

#[test]
fn limits_out_of_range(rt: HostRuntime) {
    for (message, array, depth) in NO_LIMITS {
        assert!(rt; Limits::new(*message, *array, *depth).is_none());
    }
}
