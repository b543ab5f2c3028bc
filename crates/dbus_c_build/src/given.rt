//! What a message is built from, beside its parts.
#![tactic(auto)]

ghost use Rattle.std.specs.Prelude.{◌≡◌, List, true};
ghost use Rattle.dbus_value_model.specs.declared.order.Order.{Order};
ghost use Rattle.dbus_message_model.specs.Messages.{FieldTree, has_code, is_known};

use dbus_validate::Validated;
use dbus_value_model::Limits;

/// What a message is built from, beside its parts.
#[derive(Clone, Copy)]
pub struct Given<'a> {
    /// The bytes that begin with the message that is kept; none if none is.
    pub bytes: &'a [u8],
    /// The limits that the message is held to.
    pub limits: Limits,
    /// The message that the bytes begin with, as [`dbus_validate::validate`] returned it, if its
    /// header fields are kept.
    pub kept: Option<Validated>,
}

impl<'a> Given<'a> {
    ghost use Rattle.dbus_c_build.specs.Drafts.{AreKept};

    /// Whether a field of a known code is kept.
    pub(crate) fn has(&self, code: u8) -> bool
        ensures { (order : Order) (fs : List FieldTree) → AreKept self.now order fs →
            is_known code ≡ true → result ≡ has_code code fs }
    {
        match self.kept {
            Some(validated) => validated.fields.get(code).is_some(),
            None => false,
        }
    }
}
