//! A client takes no longer trace than 255 bytes.

use dbus_auth::{Client, Mechanism};
use std::test::Fail;

// It hands its mechanisms back.
#[test]
fn long_trace(rt: HostRuntime) -> Result<(), Fail> {
    let trace = vec![in rt.alloc(); b'x'; 256]?;
    match Client::new(vec![in rt.alloc(); Mechanism::Anonymous(trace)]?) {
        Ok(_) => Err(Fail::new("the trace has over 255 bytes")),
        Err(mechanisms) => {
            assert_eq!(rt; mechanisms.len(), 1);
            Ok(())
        }
    }
}
