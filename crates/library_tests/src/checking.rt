//! Checkers that begin again: after a message, and after a fault.

use dbus_check::{Check, Checker};
use dbus_value_model::{Fault, Reason};

// A reply of 24 bytes, and the first 5 bytes of another after it.
const REPLY_AND_FRONT: &[u8] =
    b"l\x02\x01\x01\0\0\0\0\x01\0\0\0\x08\0\0\0\x05\x01u\0\x01\0\0\0l\x02\x01\x01\0";

// A reply whose body is the BOOLEAN 2.
const BOOLEAN: &[u8] =
    b"l\x02\0\x01\x04\0\0\0\x01\0\0\0\x0f\0\0\0\x05\x01u\0\x01\0\0\0\x08\x01g\0\x01b\0\0\x02\0\0\0";

#[test]
fn a_checker_ends_with_a_message_until_a_restart(rt: HostRuntime) {
    let mut checker = Checker::new();
    assert!(rt; checker.take(REPLY_AND_FRONT) == Check::Done(24));
    assert!(rt; checker.take(REPLY_AND_FRONT) == Check::Done(0));
    checker.restart();
    assert!(rt; checker.take(&REPLY_AND_FRONT[24..]) == Check::Partial);
}

// The fault is answered at the piece whose byte shows it, and stays.
#[test]
fn a_fault_stays_until_a_restart(rt: HostRuntime) {
    let mut checker = Checker::new();
    let refused = Check::Refused(Fault {
        at: 32,
        reason: Reason::Bool,
    });
    for (n, piece) in BOOLEAN.chunks(1).enumerate() {
        let right = if n < 35 { Check::Partial } else { refused };
        assert!(rt; checker.take(piece) == right, "at {n}");
    }
    for piece in [BOOLEAN, REPLY_AND_FRONT, b""] {
        assert!(rt; checker.take(piece) == refused);
    }
    checker.restart();
    assert!(rt; checker.take(REPLY_AND_FRONT) == Check::Done(24));
}
