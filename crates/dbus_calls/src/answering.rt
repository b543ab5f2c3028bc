//! Who may answer a call.
#![tactic(auto)]

ghost use Rattle.std.specs.Prelude.{◌≡◌, option_map};
ghost use Rattle.dbus_calls.specs.Answering.{is_ownable, is_unique, may_answer};

/// The name of the bus itself, and of its interface. D-Bus Specification, "Message Bus Messages".
pub const BUS: &str = "org.freedesktop.DBus";

/// Whether a message of this sender may answer a call to this destination, as far as their names
/// say. The bus may answer each call, and the destination its own. If the destination is a
/// well-known name, any sender may, since the names do not say who has it. A message without a
/// sender, or a call without a destination, did not pass a bus, so anyone may. D-Bus Specification,
/// "Header Fields" (DESTINATION, SENDER) and "Message Bus Names".
pub fn may_answer(destination: Option<&str>, sender: Option<&str>) -> bool
    ensures { result ≡ may_answer (option_map (λ d. d.now) destination.entry) (option_map (λ s. s.now) sender.entry) }
{
    match (destination, sender) {
        (Some(destination), Some(sender)) => {
            sender == BUS || sender == destination || is_ownable(destination)
        }
        _ => true,
    }
}

/// Whether a connection may have this bus name beside its unique one: it is well-known, and not the
/// bus's own. D-Bus Specification, "Message Bus Names".
pub fn is_ownable(name: &str) -> bool
    ensures { result ≡ is_ownable name.now }
{
    !is_unique(name) && name != BUS
}

/// Whether a bus name is unique: the bus gave it to one connection. D-Bus Specification, "Message
/// Bus Names".
pub fn is_unique(name: &str) -> bool
    ensures { result ≡ is_unique name.now }
{
    let bytes = name.as_bytes();
    matches!(bytes, [b':', ..])
}
