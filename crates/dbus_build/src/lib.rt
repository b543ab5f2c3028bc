//! Messages of the D-Bus wire format made of their parts, and held to limits. D-Bus Specification,
//! "Message Format".
//!
//! [`Build::new`], called as `Message::new`, makes a message of parts, or hands them back with the
//! first [`BuildFault`] that holds. [`Within::within`] asks whether a message keeps limits that are
//! handed in. An example is at [`Build::new`].
#![tactic(auto)]

mod build;
mod build_fault;
mod building;
mod faulty_body;
mod faulty_fields;
pub mod laws;
mod message_size;
mod within;

pub use build::{Build, Within};
pub use build_fault::BuildFault;
