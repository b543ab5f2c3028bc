//! What holds of descriptors and messages. None of these functions does anything: their contracts
//! are the laws, over the definitions that the calls of the crate are specified by.
//!
//! D-Bus Specification, "Header Fields" (UNIX_FDS).

ghost use Rattle.dbus_descriptors.specs.Sharing.{EachOnce, OneSharing, Refusal};

/// Each descriptor that was kept was taken once, by one message, or is left, and all stay in order.
pub fn each_once<T>()
    ensures { EachOnce T }
{}

/// What came and which messages ended decides which descriptors a message has: the order in which
/// both were told does not matter, so neither does the cut of the stream into reads.
pub fn one_sharing<T>()
    ensures { OneSharing T }
{}

/// It also decides which message is refused. If one is, no message could have had its descriptors,
/// also if those had been told before that came at its end or behind it.
pub fn refusal<T>()
    ensures { Refusal T }
{}
