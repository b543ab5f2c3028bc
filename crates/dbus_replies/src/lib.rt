//! Which of the calls of one side of a connection that wait a message answers.
//!
//! [`reply_of`] finds it among those that a [`Pending`](dbus_pending::Pending) keeps. D-Bus
//! Specification, "Message Types" ("Method Calls") and "Header Fields" (REPLY_SERIAL, SENDER).
#![tactic(auto)]

mod replies;

pub use replies::reply_of;
