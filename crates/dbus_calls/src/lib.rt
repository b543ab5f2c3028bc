//! Which calls of methods wait for a reply, and which of them a reply answers. D-Bus Specification,
//! "Message Types".
//!
//! An [`EventView`] is a message with what it is to the calls that wait, an [`Event`], and
//! [`OpenCalls`] keeps these calls. [`laws::keeps_open`] says that one pass over messages then keeps
//! exactly the calls that are open. An example is at [`EventView`].
#![tactic(auto)]

mod answering;
mod caller_calls;
mod changes;
mod event;
mod event_view;
pub mod laws;
mod open_calls;
mod sent;

pub use answering::{BUS, is_ownable, is_unique, may_answer};
pub use caller_calls::CallerCalls;
pub use changes::{NameOwner, OwnerChange};
pub use event::{CallSeen, Event, ReplySeen};
pub use event_view::EventView;
pub use open_calls::OpenCalls;
pub use sent::Sent;
