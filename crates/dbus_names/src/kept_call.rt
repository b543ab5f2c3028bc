//! What is kept of a call whose reply tells who has a name.
#![tactic(auto)]

ghost use Rattle.std.specs.Prelude.{◌≡◌, IfOk};
ghost use Rattle.dbus_names.specs.Kept.{call_kept, call_seen};
ghost use Rattle.dbus_names.specs.NameCalls.{receiver_of};

use crate::name_call::{Holder, NameCall};
use dbus_calls::{BUS, Sent};
use std::alloc::{AllocError, Global};

/// A call whose reply tells who has a name.
#[derive(Drop)]
pub(crate) struct KeptCall {
    /// The name.
    pub(crate) name: String,
    /// Who has it.
    pub(crate) holder: Holder,
}

impl KeptCall {
    /// What is kept of the call.
    ///
    /// `AllocError`: an allocation failed.
    pub(crate) fn of(alloc: Global, call: NameCall<'_>) -> Result<KeptCall, AllocError>
        ensures { IfOk result (λ kept. call_kept kept ≡ call_seen call.entry) }
    {
        Ok(KeptCall {
            name: String::from_str(alloc, call.name)?,
            holder: call.holder,
        })
    }
}

impl Sent for KeptCall {
    ghost sent_to = { λ call. receiver_of (call_kept call) };

    fn destination(&self) -> Option<&str> {
        match self.holder {
            Holder::Caller | Holder::Value => Some(BUS),
            Holder::Sender => Some(self.name.as_str()),
        }
    }
}
