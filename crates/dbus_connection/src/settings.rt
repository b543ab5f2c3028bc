//! What a connection keeps to.
#![tactic(auto)]

use dbus_value_model::Limits;

/// What a connection keeps to.
#[derive(Clone, Copy)]
pub struct Settings {
    /// The limits of the messages that come.
    pub limits: Limits,
    /// The most bytes of a message that is given. One that states more is passed over, so that no
    /// more than these have to be at hand at once. It has no effect from the limits' message on.
    pub longest: u32,
    /// How many calls may wait for a reply.
    pub calls: u16,
}
