//! What is sent of a draft, and what is kept of a call.
#![tactic(auto)]

ghost use Rattle.std.specs.Prelude.{◌≡◌, IfOk, option_map, string_bytes};
ghost use Rattle.dbus_calls.specs.Events.{destination_of};
ghost use Rattle.dbus_message_model.specs.MessageViews.{message_tree};
ghost use Rattle.dbus_connection.specs.declared.sending.Unsent.TheVariants.{Unmade};
ghost use Rattle.dbus_build.specs.declared.build_fault.BuildFault.TheVariants.{Memory};

use dbus_build::BuildFault;
use dbus_calls::Sent;
use dbus_message_model::Message;
use std::alloc::{AllocError, Global};
use thiserror::Error;

/// A message to send.
#[derive(Drop)]
pub struct Outgoing {
    /// Its serial.
    pub serial: u32,
    /// Its bytes, in little endian.
    pub bytes: Vec<u8>,
}

/// Why nothing is sent.
#[derive(Clone, Copy, PartialEq, Eq, Debug, Drop, Error)]
pub enum Unsent {
    /// The handshake goes on, or the connection is closed.
    #[error("the connection is not open")]
    NotOpen,
    /// As many calls wait for a reply as may.
    #[error("too many calls wait for a reply")]
    Full,
    /// The draft makes no message, or an allocation failed.
    #[error("{0}")]
    Unmade(BuildFault),
}

impl From<BuildFault> for Unsent {
    ghost from_gives = { λ e f. f ≡ Unmade e };

    fn from(fault: BuildFault) -> Unsent {
        Unsent::Unmade(fault)
    }
}

impl From<AllocError> for Unsent {
    ghost from_gives = { λ e f. f ≡ Unmade Memory };

    fn from(_error: AllocError) -> Unsent {
        Unsent::Unmade(BuildFault::Memory)
    }
}

/// A call that waits for its reply.
#[derive(Drop)]
pub struct Asked<T> {
    /// Its DESTINATION, if it has one. D-Bus Specification, "Header Fields".
    pub destination: Option<String>,
    /// What its caller wants to know again.
    pub call: T,
}

impl<T: Drop> Sent for Asked<T> {
    ghost sent_to = { λ asked. option_map string_bytes asked.destination };

    fn destination(&self) -> Option<&str> {
        match &self.destination {
            Some(name) => Some(name.as_str()),
            None => None,
        }
    }
}

/// A copy of the message's DESTINATION, if it has one.
pub(crate) fn destination_of(alloc: Global, message: &Message) -> Result<Option<String>, AllocError>
    ensures { IfOk result (λ name. option_map string_bytes name ≡
        destination_of (message_tree message.now)) }
{
    match message.destination() {
        Some(name) => Ok(Some(String::from_str(alloc, name)?)),
        None => Ok(None),
    }
}
