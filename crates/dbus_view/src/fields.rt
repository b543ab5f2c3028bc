//! Header fields of a message, seen one by one. D-Bus Specification, "Header Fields".
#![tactic(auto)]

ghost use Rattle.std.specs.Prelude.{◌-◌, ℕ, List};
ghost use Rattle.dbus_message_model.specs.Messages.{FieldTree};

use dbus_values::Values;
use dbus_walk::{FIELDS_START, MessageBytes, field_at, fields_end};
use std::marker::Model;

/// A header field, seen in place. D-Bus Specification, "Header Fields".
#[derive(Drop)]
pub struct FieldView<'a> {
    /// The code.
    pub code: u8,
    /// The one value that the field's variant holds.
    pub value: Values<'a>,
}

/// Header fields of a message in their order, those of unknown codes too. D-Bus Specification,
/// "Header Fields".
#[derive(Drop)]
pub struct Fields<'a> {
    source: MessageBytes<'a>,
    at: usize,
    end: usize,
    depth_left: u8,
}

impl<'a> Model for Fields<'a> {
    ghost use Rattle.std.specs.Prelude.{◌-◌, ℕ, List};
    ghost use Rattle.dbus_message_model.specs.Messages.{FieldTree};
    ghost use Rattle.dbus_values.specs.States.{ElementsState};
    ghost use Rattle.dbus_walk.specs.Fields.{FieldsLeft, field_types};

    ghost Value = { ElementsState };

    ghost view = { λ s. record {
      order = s.source.order;
      bytes = s.source.bytes.now;
      at = s.at;
      end = s.end;
      type = field_types;
      depth_left = s.depth_left - 1;
    } };

    ghost invariant = { λ s. (fs : List FieldTree) × (rest : List ℕ) × FieldsLeft s.source s.depth_left s.at s.end fs rest };
}

impl<'a> Fields<'a> {
    ghost use Rattle.dbus_walk.specs.Fields.{FieldsStand};
    ghost use Rattle.dbus_view.specs.Views.{FieldsAreLeft};

    /// The fields of a message, in which at most `depth_left` containers may be open.
    pub(crate) fn new(source: &MessageBytes<'a>, depth_left: u8) -> Fields<'a>
        requires { (fs : List FieldTree) × (rest : List ℕ) × FieldsStand source.now depth_left fs rest }
        ensures { (fs : List FieldTree) (rest : List ℕ) →
            FieldsStand source.now depth_left fs rest → FieldsAreLeft result fs }
    {
        Fields {
            source: *source,
            at: FIELDS_START,
            end: fields_end(source),
            depth_left,
        }
    }
}

impl<'a> Iterator for Fields<'a> {
    ghost use Rattle.std.specs.Iterator.{at_most};
    ghost use Rattle.dbus_view.specs.Views.{PassesField};

    type Item = FieldView<'a>;

    ghost next_gives = { PassesField };

    // Each field has a byte at least.
    ghost remaining = { λ s. at_most (s.end - s.at) };

    /// The next field, or `None` if no field is left.
    fn next(&mut self) -> Option<FieldView<'a>> {
        if self.at == self.end {
            return None;
        }
        let field = field_at(&self.source, self.at, self.depth_left);
        let value = Values::new(&self.source, field.at, field.types, field.depth_left);
        let mut passed = value.again();
        let _seen = passed.next();
        self.at = passed.at();
        Some(FieldView {
            code: field.code,
            value,
        })
    }
}
