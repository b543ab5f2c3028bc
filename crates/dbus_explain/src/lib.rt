//! Why a message or a match rule is refused, explained for a reader: the place of the fault, what
//! is there, and what has to be there.
//!
//! For a fault of [`Refused`] bytes [`explain_message`] writes its place in the message, the head
//! of the message as it is shown, the bytes at the place, and the rule that they break with its
//! section of the D-Bus Specification; its [`Explanation`] says where in these lines each part is,
//! [`field_of`] which header field it is of, and [`parts_before`] which header fields and values of
//! the body are whole before it. For a fault of a match rule [`explain_rule`] writes the rule, a
//! mark below the place, and what may be there. They write to a `Draft`, as does
//! [`write_refusal_members`], which says the same of a message in JSON. [`write_marked_line`] and
//! [`rule_of`] are the parts of which other explanations are made.
#![tactic(auto)]

mod before;
mod blanks;
mod escaping;
mod explanation;
mod head;
pub mod laws;
mod looks;
mod marked;
mod members;
mod message;
mod path;
mod places;
mod reasons;
mod rule;
mod search;
mod values;
mod window;

pub use before::{WholeParts, parts_before};
pub use explanation::{Explanation, LinesPart};
pub use marked::write_marked_line;
pub use members::write_refusal_members;
pub use message::{Refused, explain_message};
pub use places::field_of;
pub use reasons::rule_of;
pub use rule::explain_rule;
pub use search::StatedText;
