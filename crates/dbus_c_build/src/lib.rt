//! Messages built in bytes, for C: of a header in numbers and texts, and of a body that is spelled
//! already. D-Bus Specification, "Message Format".
//!
//! [`build`] makes a message of parts, with its header fields in the order of their codes and none
//! of unknown codes; or it changes a message, whose fields it keeps in their places, also those of
//! unknown codes. What it spells it validates, so that it builds exactly the messages.
#![tactic(auto)]

mod building;
mod draft;
mod draft_fault;
mod fields;
mod given;
mod kept;
pub mod laws;
mod lengths;

pub use building::build;
pub use draft::Draft;
pub use draft_fault::DraftFault;
pub use given::Given;
