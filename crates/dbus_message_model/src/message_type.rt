//! The message types that the specification names. Any other type but 0 is accepted, and its
//! messages are to be ignored. D-Bus Specification, "Message Format".
#![tactic(auto)]

ghost use Rattle.std.specs.Prelude.{◌≡◌, option_map};
ghost use Rattle.dbus_message_model.specs.MessageTypes.{type_name};

/// A call of a method.
pub const METHOD_CALL: u8 = 1;

/// The reply to a call, with what the method returns.
pub const METHOD_RETURN: u8 = 2;

/// The reply to a call that failed.
pub const ERROR: u8 = 3;

/// A signal, which is sent to whoever listens.
pub const SIGNAL: u8 = 4;

/// The name of a message type, as match rules and printed messages have it: `method_call`,
/// `method_return`, `error` or `signal`; `None` of any other type. D-Bus Specification, "Match
/// Rules".
pub fn type_name(kind: u8) -> Option<&'static str>
    ensures { option_map (λ s. s.now) result ≡ type_name kind }
{
    match kind {
        METHOD_CALL => Some("method_call"),
        METHOD_RETURN => Some("method_return"),
        ERROR => Some("error"),
        SIGNAL => Some("signal"),
        _ => None,
    }
}
