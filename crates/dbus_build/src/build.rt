//! Messages that are made of their parts, and held to limits.
#![tactic(auto)]

ghost use Rattle.std.specs.Prelude.{◌↔◌, IsTrue};
ghost use Rattle.dbus_value_model.specs.Specification.{specification};
ghost use Rattle.dbus_build.specs.BuildFaults.{IsAccepted, IsBuilt, IsTaken};
ghost use Rattle.dbus_message_model.specs.KeptLimits.{KeepsLimits};
ghost use Rattle.dbus_message_model.specs.MessageViews.{message_tree};

use crate::build_fault::BuildFault;
use crate::building::build_within;
use crate::within::keeps_limits;
use dbus_message_model::{Message, Parts};
use dbus_value_model::Limits;
use std::alloc::Allocator;

/// What makes a [`Message`] of its parts and holds it to limits, as `Message::new(alloc, parts)`
/// and `message.within(limits)`. It is a trait so that reading messages does not wait for what
/// measures them: bring it into scope by `use dbus_message::Build`.
pub trait Build: Sized {
    /// Where the message keeps what it holds.
    type Allocator;

    /// What it is made of.
    type Parts;

    /// The message of these parts, as [`Build::new_within`] says under the limits of the
    /// specification.
    ///
    /// ```rust
    /// use dbus_message::{Build, HeaderField, Message, Parts, field_code, message_type};
    /// use dbus_value::Value;
    ///
    /// let path = Value::Path(String::from_str(alloc, "/org/freedesktop/DBus")?);
    /// let member = Value::text(alloc, "Hello")?;
    /// let mut fields = Vec::new(alloc);
    /// fields.push(HeaderField { code: field_code::PATH, value: path })?;
    /// fields.push(HeaderField { code: field_code::MEMBER, value: member })?;
    /// let (kind, flags, serial, body) = (message_type::METHOD_CALL, 0, 1, Vec::new(alloc));
    /// match Message::new(alloc, Parts { kind, flags, serial, fields, body }) {
    ///     Ok(message) => println!(rt; "a message of {} bytes", message.size())?,
    ///     Err((_, fault)) => println!(rt; "no message: {fault}")?,
    /// }
    /// ```
    fn new(alloc: Self::Allocator, parts: Self::Parts) -> Result<Self, (Self::Parts, BuildFault)>;

    /// The message of these parts, which is `Ok` exactly if no case of [`BuildFault`] holds of them
    /// under the limits.
    ///
    /// The error hands the parts back, with the first case that holds of them. Nothing is
    /// allocated, so `Memory` is never returned. D-Bus Specification, "Message Format", "Header
    /// Fields".
    fn new_within(
        alloc: Self::Allocator,
        parts: Self::Parts,
        limits: Limits,
    ) -> Result<Self, (Self::Parts, BuildFault)>;
}

/// What holds a [`Message`](dbus_message_model::Message) to limits, as `message.within(limits)`.
pub trait Within {
    /// Whether the message keeps the limits. It does if it has no more bytes than their message, no
    /// array in it, that of its fields among them, more than their array, no more arrays, structs
    /// and variants are open at once than their depth, and the indexes of descriptors in its body
    /// are as their rule asks.
    ///
    /// These are the cases of [`BuildFault`] that speak of limits: it is true exactly if
    /// [`Build::new_within`] finds no fault in its parts. D-Bus Specification, "Message Format" and
    /// "Marshaling (Wire Format)".
    fn within(&self, limits: Limits) -> bool;
}

impl<A: Allocator + Copy> Build for Message<A> {
    type Allocator = A;

    type Parts = Parts<A>;

    fn new(_alloc: A, parts: Parts<A>) -> Result<Message<A>, (Parts<A>, BuildFault)>
        ensures built { IsBuilt specification parts result }
        ensures accepted { IsAccepted specification parts result }
        ensures taken { IsTaken specification parts result }
    {
        build_within(parts, Limits::specification())
    }

    fn new_within(
        _alloc: A,
        parts: Parts<A>,
        limits: Limits,
    ) -> Result<Message<A>, (Parts<A>, BuildFault)>
        ensures built { IsBuilt limits parts result }
        ensures accepted { IsAccepted limits parts result }
        ensures taken { IsTaken limits parts result }
    {
        build_within(parts, limits)
    }
}

impl<A: Allocator> Within for Message<A> {
    fn within(&self, limits: Limits) -> bool
        ensures { IsTrue result ↔ KeepsLimits limits (message_tree self.now) }
    {
        keeps_limits(self, limits)
    }
}
