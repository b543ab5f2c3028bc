//! Makes the signal `PropertiesChanged` of a service that has started: its values as trees, the
//! message of them, and its bytes.

use anyhow::Result;
use dbus_message::{Compose, Message, encode};
use dbus_types::SigType;
use dbus_value::{DictEntry, Order, Value};
use std::alloc::{AllocError, Global};
use std::sync::Arc;

const PATH: &str = "/org/freedesktop/systemd1/unit/dbus_2eservice";

const INTERFACE: &str = "org.freedesktop.DBus.Properties";

const MEMBER: &str = "PropertiesChanged";

const SENDER: &str = ":1.3";

// The text that comes first in its body.
const SERVICE: &str = "org.freedesktop.systemd1.Service";

// What a property is now.
#[derive(Clone, Copy)]
enum Now {
    Text(&'static str),
    Number(u32),
    Count(u64),
    Is(bool),
}

// The properties that changed, as a service manager tells them of a service that has started.
const CHANGED: [(&str, Now); 17] = [
    ("ActiveState", Now::Text("active")),
    ("SubState", Now::Text("running")),
    ("StateChangeTimestamp", Now::Count(1_764_126_000_000_000)),
    ("StateChangeTimestampMonotonic", Now::Count(12_345_678)),
    ("InactiveExitTimestamp", Now::Count(1_764_125_999_000_000)),
    ("ActiveEnterTimestamp", Now::Count(1_764_126_000_000_000)),
    ("MainPID", Now::Number(1_234)),
    ("NRestarts", Now::Number(0)),
    ("NotifyAccess", Now::Text("main")),
    ("StatusText", Now::Text("Processing requests....")),
    ("ControlGroup", Now::Text("/system.slice/dbus.service")),
    ("ConditionResult", Now::Is(true)),
    ("AssertResult", Now::Is(true)),
    ("MemoryCurrent", Now::Count(4_194_304)),
    ("TasksCurrent", Now::Count(3)),
    ("CPUUsageNSec", Now::Count(98_765_432)),
    ("IPIngressBytes", Now::Count(65_536)),
];

// The properties that changed to something that is not told.
const INVALIDATED: [&str; 4] = ["ExecStart", "ExecStop", "ExecMainStatus", "ExecMainCode"];

fn text_value(alloc: Global, text: &str) -> Result<Value, AllocError> {
    Ok(Value::Str(String::from_str(alloc, text)?))
}

// What a property is now.
fn value_of(alloc: Global, now: Now) -> Result<Value, AllocError> {
    match now {
        Now::Text(text) => text_value(alloc, text),
        Now::Number(number) => Ok(Value::U32(number)),
        Now::Count(count) => Ok(Value::U64(count)),
        Now::Is(so) => Ok(Value::Bool(so)),
    }
}

// A property and what it is now.
fn entry(alloc: Global, name: &str, now: Now) -> Result<Value, AllocError> {
    let key = text_value(alloc, name)?;
    let value = Value::Variant(Box::new(alloc, value_of(alloc, now)?)?);
    Ok(Value::Entry(Box::new(alloc, DictEntry { key, value })?))
}

// The properties and what they are now, `a{sv}`.
fn changed(alloc: Global) -> Result<Value, AllocError> {
    let key = Arc::new(alloc, SigType::Str)?;
    let item = SigType::Entry(key, Arc::new(alloc, SigType::Variant)?);
    let mut entries = Vec::with_capacity(alloc, CHANGED.len())?;
    for (name, now) in &CHANGED {
        entries.push(entry(alloc, name, *now)?)?;
    }
    Ok(Value::Array(item, entries))
}

// The names of the other properties, `as`.
fn invalidated(alloc: Global) -> Result<Value, AllocError> {
    let mut names = Vec::with_capacity(alloc, INVALIDATED.len())?;
    for name in &INVALIDATED {
        names.push(text_value(alloc, name)?)?;
    }
    Ok(Value::Array(SigType::Str, names))
}

/// The signal's bytes.
pub(crate) fn signal(alloc: Global) -> Result<Vec<u8>> {
    let changed = changed(alloc)?;
    let invalidated = invalidated(alloc)?;
    let message = Message::signal(alloc, PATH, INTERFACE, MEMBER)
        .sender(SENDER)
        .text(SERVICE)
        .value(changed)
        .value(invalidated)
        .build()?;
    Ok(encode(alloc, &message, Order::Little)?)
}
