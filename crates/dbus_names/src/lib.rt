//! Who has which name, as the messages of an input tell it. D-Bus Specification, "Message Bus
//! Names".
//!
//! The signals of the bus tell it: `NameOwnerChanged`, `NameAcquired` and `NameLost`. Replies tell
//! it too: of the bus to `RequestName` and `GetNameOwner`, and of a connection to a call to a
//! well-known name. So an input that has one connection alone also tells some. [`Names`] learns it,
//! message after message, and [`laws`] says that it knows the calls of the replies. An example is
//! at [`Names`].
#![tactic(auto)]

mod filter;
mod first_names;
mod kept_call;
pub mod laws;
mod name_call;
mod names;
mod telling;

pub use filter::{NameFilter, WellKnownNames};
pub use name_call::{Holder, NameCall};
pub use names::{Names, asked_by};
pub use telling::holder_told;
