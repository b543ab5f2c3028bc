//! Values seen in place, as what can be printed.
//!
//! [`Shown`] is `Display`: what `dbus-wire show` has of values. Nothing is allocated. `dbus_show`
//! defines the text, and one walk writes it.
#![tactic(auto)]

mod first;
mod formatter_draft;
mod shown;

pub use first::first_value;
pub use shown::Shown;
