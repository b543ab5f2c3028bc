//! The message that was validated in bytes, and where its parts are for a walk. D-Bus
//! Specification, "Message Format".
#![tactic(auto)]

ghost use Rattle.std.specs.Prelude.{◌≡◌, ℕ, List, []};
ghost use Rattle.dbus_types.specs.SignatureCodes.{AreLengths};
ghost use Rattle.dbus_value_model.specs.Values.{MoreValues, NoValues};
ghost use Rattle.dbus_message_model.specs.Messages.{MessageTree, body_start, field_array};
ghost use Rattle.dbus_walk.specs.Fields.{FieldsStand};
ghost use Rattle.dbus_walk.specs.Standing.{AllStandAt};
ghost use Rattle.dbus_walk.specs.declared.spot.MessageBytes.{MessageBytes};
ghost use Rattle.dbus_validate.specs.Validating.{WasValidated, IsOwn, IsWholeOf};

use crate::validating::Validated;
use dbus_value_model::Limits;
use dbus_walk::{MessageBytes, Spot, lengths_of};

/// The offset of the array of the header fields.
const FIELDS_AT: usize = 12;

/// The type of that array.
const FIELDS_TYPE: &[u8] = b"a(yv)";

/// The message that bytes begin with, as it was validated in them under limits.
#[derive(Clone, Copy)]
pub struct Whole<'a> {
    /// The bytes.
    pub bytes: &'a [u8],
    /// The limits.
    pub limits: Limits,
    /// Where the parts of the message are.
    pub validated: &'a Validated,
}

impl<'a> Whole<'a> {
    /// The bytes of the message, without those after it.
    pub fn source(&self) -> MessageBytes<'a>
        requires validated { WasValidated self.now }
        ensures own { IsOwn self.now result }
        ensures fields { (m : MessageTree) → IsWholeOf self.now m →
            (rest : List ℕ) × FieldsStand result self.now.limits.depth m.fields rest }
    {
        MessageBytes {
            bytes: &self.bytes[..self.validated.length],
            order: self.validated.order,
        }
    }

    /// Where the array of its header fields is. The table gets how long the types are.
    pub fn fields(&self, table: &'a mut [u8; 255]) -> Spot<'a>
        requires validated { WasValidated self.now }
        ensures begins { result.at ≡ 12 }
        ensures noted { AreLengths result.types.now result.lengths.now }
        ensures stand { (source : MessageBytes) (m : MessageTree) → IsOwn self.now source → IsWholeOf self.now m →
            (rest : List ℕ) × AllStandAt source result (MoreValues (field_array m.fields) NoValues) rest }
    {
        Spot {
            at: FIELDS_AT,
            types: FIELDS_TYPE,
            lengths: lengths_of(FIELDS_TYPE, table),
            depth_left: self.limits.depth,
        }
    }

    /// Where the values of its body are. The table gets how long their types are.
    pub fn body(&self, table: &'a mut [u8; 255]) -> Spot<'a>
        requires validated { WasValidated self.now }
        ensures begins { (m : MessageTree) → IsWholeOf self.now m → result.at ≡ body_start self.now.validated.now.order m.fields }
        ensures noted { AreLengths result.types.now result.lengths.now }
        ensures stand { (source : MessageBytes) (m : MessageTree) → IsOwn self.now source → IsWholeOf self.now m →
            AllStandAt source result m.body [] }
    {
        let types = self.validated.fields.signature(self.bytes);
        Spot {
            at: self.validated.body,
            types,
            lengths: lengths_of(types, table),
            depth_left: self.limits.depth,
        }
    }
}
