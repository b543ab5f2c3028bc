//! Replies to calls of the methods of the service's object, which is on every path.

use anyhow::Result;
use dbus_message::{Compose, Message, MessageBuilder};
use dbus_value::Value;
use std::alloc::{AllocError, Global};

// What `Introspect` returns. D-Bus Specification, "Introspection Data Format".
const INTROSPECTION: &str =
    "<!DOCTYPE node PUBLIC \"-//freedesktop//DTD D-BUS Object Introspection 1.0//EN\"
\"http://www.freedesktop.org/standards/dbus/1.0/introspect.dtd\">
<node>
  <interface name=\"org.example.Greeter\">
    <method name=\"Greet\">
      <arg name=\"name\" type=\"s\" direction=\"in\"/>
      <arg name=\"greeting\" type=\"s\" direction=\"out\"/>
    </method>
  </interface>
</node>
";

// Greets who is named.
fn greeting(alloc: Global, call: &Message) -> Result<MessageBuilder, AllocError> {
    if let [Value::Str(name)] = call.parts().body.as_slice() {
        let text = format!(in alloc; "Hello, {name}!")?;
        return Ok(Message::reply_to(alloc, call).text(&text));
    }
    let error = "org.freedesktop.DBus.Error.InvalidArgs";
    Ok(Message::error_to(alloc, call, error).text("Greet takes one string"))
}

// What a call returns: a value or none, or the error that it fails by, with a text for people. A
// call may leave out the interface, and then its member alone says which method is called. D-Bus
// Specification, "Standard Interfaces" and "Message Bus Messages".
fn outcome(alloc: Global, call: &Message) -> Result<MessageBuilder, AllocError> {
    let interface = call.interface().unwrap_or("");
    let member = call.member().unwrap_or("");
    match (interface, member) {
        ("org.freedesktop.DBus" | "", "Hello") => {
            Ok(Message::reply_to(alloc, call).text(":1.1"))
        }
        ("org.freedesktop.DBus.Peer" | "", "Ping") => Ok(Message::reply_to(alloc, call)),
        ("org.freedesktop.DBus.Introspectable" | "", "Introspect") => {
            Ok(Message::reply_to(alloc, call).text(INTROSPECTION))
        }
        ("org.example.Greeter" | "", "Greet") => greeting(alloc, call),
        _ => {
            let text = format!(in alloc; "no method {member:?} of interface {interface:?}")?;
            let error = "org.freedesktop.DBus.Error.UnknownMethod";
            Ok(Message::error_to(alloc, call, error).text(&text))
        }
    }
}

/// The reply to a call, with this serial: to its sender, and from whom it was for.
pub(crate) fn reply(alloc: Global, call: &Message, serial: u32) -> Result<Message> {
    let outcome = outcome(alloc, call)?.serial(serial);
    let reply = match call.destination() {
        Some(name) => outcome.sender(name),
        None => outcome,
    };
    Ok(reply.build()?)
}
