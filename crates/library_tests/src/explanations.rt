//! The explanation of a fault that no input has, and one in JSON. All others are cases of
//! `explained.txt`.

use dbus_explain::{Refused, explain_message, write_refusal_members};
use dbus_show::StringDraft;
use dbus_value_model::{Fault, Reason};
use std::alloc::{AllocError, Global};
use std::test::Fail;

// A fault far past the bytes.
const REFUSED: Refused = Refused {
    bytes: b"l",
    fault: Fault {
        at: u64::MAX,
        reason: Reason::NotYet,
    },
    number: 1,
    offset: 0,
};

const EXPLAINED: &str = "\
\x20 message 1 at 0, byte 1: the message type
  6c []
  no input is refused for this reason
";

// A method_return whose body, a BOOLEAN, is 2.
const NO_BOOLEAN: Refused = Refused {
    bytes: b"l\x02\x01\x01\x04\0\0\0\x01\0\0\0\x0f\0\0\0\x05\x01u\0\x01\0\0\0\x08\x01g\0\x01b\0\0\x02\0\0\0",
    fault: Fault {
        at: 32,
        reason: Reason::Bool,
    },
    number: 1,
    offset: 0,
};

const MEMBERS: &str = "\
\"place\":\"body[0]\",\
\"rule\":\"a BOOLEAN is 0 or 1 (D-Bus Specification, \\\"Marshaling (Wire Format)\\\")\",\
\"header\":{\"order\":\"l\",\"type\":\"method_return\",\"flags\":1,\"serial\":1,\
\"reply_serial\":1,\"signature\":\"b\",\"fields\":[]}";

fn members(alloc: Global) -> Result<String, AllocError> {
    let mut text = String::new(alloc);
    let mut draft = StringDraft::new(&mut text);
    write_refusal_members(&mut draft, &NO_BOOLEAN);
    draft.finish()?;
    Ok(text)
}

fn explained(alloc: Global) -> Result<String, AllocError> {
    let mut text = String::new(alloc);
    let mut draft = StringDraft::new(&mut text);
    explain_message(&mut draft, &REFUSED);
    draft.finish()?;
    Ok(text)
}

#[test]
fn places_past_the_bytes(rt: HostRuntime) -> Result<(), Fail> {
    assert!(rt; explained(rt.alloc())?.as_str() == EXPLAINED);
    Ok(())
}

#[test]
fn members_of_a_refusal(rt: HostRuntime) -> Result<(), Fail> {
    assert!(rt; members(rt.alloc())?.as_str() == MEMBERS);
    Ok(())
}
