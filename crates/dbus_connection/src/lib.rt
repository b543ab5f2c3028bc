//! One side of a connection.
#![tactic(auto)]

mod client_side;
mod connection;
mod event;
mod handing;
pub mod laws;
mod phase;
mod reading;
mod sending;
mod settings;

pub use connection::Connection;
pub use event::{Begun, Event, Incoming, PassedOver, Step};
pub use sending::{Asked, Outgoing, Unsent};
pub use settings::Settings;
