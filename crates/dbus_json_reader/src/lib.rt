//! Lines of JSON, as `dbus_json` writes them, read back: which values, and which message, they
//! spell.
#![tactic(auto)]

mod basics;
mod blame;
mod doubles;
mod head;
mod integers;
mod known;
mod members;
mod message;
mod names;
mod numbers;
mod others;
mod reasons;
mod texts;
mod tokens;
mod unread;
mod values;

pub use doubles::double;
pub use integers::{signed_in, unsigned_in};
pub use members::{kind, order};
pub use message::read_message;
pub use numbers::{signed_16, signed_32, signed_64, unsigned, unsigned_64};
pub use reasons::JsonReason;
pub use texts::text;
pub use unread::{Broken, Unread};
pub use values::{read_value, read_values};
