//! Several values, one after another.
#![tactic(auto)]

ghost use Rattle.std.specs.Prelude.{◌≡◌, ℕ, List, length, MatchOption};
ghost use Rattle.dbus_value_model.specs.Values.{ValueTrees, NoValues};

use crate::passing::pass;
use crate::view::ValueView;
use dbus_types::type_end;
use dbus_walk::{MessageBytes, Spot};
use std::marker::Model;

/// Values of a message that follow one another, one of each type of a signature: the fields of a
/// struct, the key and the value of a dict entry, the value that a variant holds, or the values of
/// a body. D-Bus Specification, "Marshaling (Wire Format)".
#[derive(Drop)]
pub struct Values<'a> {
    source: MessageBytes<'a>,
    at: usize,
    types: &'a [u8],
    depth_left: u8,
}

impl<'a> Model for Values<'a> {
    ghost use Rattle.dbus_values.specs.States.{ValuesState, SomeAreLeft};

    ghost Value = { ValuesState };

    ghost view = { λ s. record {
      order = s.source.order;
      bytes = s.source.bytes.now;
      at = s.at;
      types = s.types.now;
      depth_left = s.depth_left;
    } };

    ghost invariant = { λ s. SomeAreLeft (record {
      order = s.source.order;
      bytes = s.source.bytes.now;
      at = s.at;
      types = s.types.now;
      depth_left = s.depth_left;
    }) };
}

impl<'a> Values<'a> {
    ghost use Rattle.dbus_values.specs.States.{AreLeft, SomeAreLeft, values_at};
    ghost use Rattle.dbus_values.specs.Seen.{IsFirstCode};

    /// The values in the bytes from `at` on, one of each type of the signature. At most
    /// `depth_left` containers may be open in them.
    pub fn new(source: &MessageBytes<'a>, at: usize, types: &'a [u8], depth_left: u8) -> Values<'a>
        requires { SomeAreLeft (record {
          order = source.now.order;
          bytes = source.now.bytes.now;
          at = at;
          types = types.now;
          depth_left = depth_left;
        }) }
        ensures { result ≡ record {
          order = source.now.order;
          bytes = source.now.bytes.now;
          at = at;
          types = types.now;
          depth_left = depth_left;
        } }
    {
        Values {
            source: *source,
            at,
            types,
            depth_left,
        }
    }

    /// The same values, to be seen once more.
    pub fn again(&self) -> Values<'a>
        ensures { result ≡ self.now }
    {
        Values {
            source: self.source,
            at: self.at,
            types: self.types,
            depth_left: self.depth_left,
        }
    }

    /// The bytes, and where in them the values are. How long their types are is not noted there.
    pub fn place(&self) -> (MessageBytes<'a>, Spot<'a>)
        ensures place { values_at result.0 result.1 ≡ self.now }
        ensures some { SomeAreLeft self.now }
    {
        let spot = Spot {
            at: self.at,
            types: self.types,
            lengths: &[],
            depth_left: self.depth_left,
        };
        (self.source, spot)
    }

    /// The offset in the bytes where the first of the values begins, padding with it, or where the
    /// last one ended.
    pub fn at(&self) -> usize
        ensures { result ≡ self.now.at }
    {
        self.at
    }

    /// The first code of the first value's type, as `a` of an array. `None` if there are no values.
    /// D-Bus Specification, "Type System".
    pub fn first_code(&self) -> Option<u8>
        ensures { (xs : ValueTrees) (rest : List ℕ) → AreLeft self.now xs rest →
            MatchOption result (xs ≡ NoValues) (λ code. IsFirstCode xs code) }
    {
        if self.types.is_empty() {
            return None;
        }
        Some(self.types[0])
    }
}

impl<'a> Iterator for Values<'a> {
    ghost use Rattle.std.specs.Iterator.{at_most};
    ghost use Rattle.dbus_values.specs.Seen.{PassesValue};

    type Item = ValueView<'a>;

    ghost next_gives = { PassesValue };

    ghost remaining = { λ s. at_most (length s.types) };

    /// The next value, or `None` if no value is left.
    fn next(&mut self) -> Option<ValueView<'a>> {
        if self.types.is_empty() {
            return None;
        }
        let end = type_end(self.types, 0);
        let spot = Spot {
            at: self.at,
            types: &self.types[..end],
            lengths: &[],
            depth_left: self.depth_left,
        };
        let (seen, after) = pass(&self.source, &spot);
        self.at = after;
        self.types = &self.types[end..];
        Some(seen)
    }
}
