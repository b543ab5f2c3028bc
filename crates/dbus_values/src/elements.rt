//! Elements of an array.
#![tactic(auto)]

ghost use Rattle.std.specs.Prelude.{◌≡◌, ◌-◌, ℕ, List, length, MatchOption};
ghost use Rattle.dbus_value_model.specs.Values.{ValueTrees};

use crate::passing::pass;
use crate::view::ValueView;
use dbus_value_model::{Order, gap};
use dbus_walk::{MessageBytes, Run, Spot, number_width};
use std::marker::Model;

/// Elements of an array, which follow one another. All have one type. D-Bus Specification,
/// "Marshaling (Wire Format)".
#[derive(Drop)]
pub struct Elements<'a> {
    source: MessageBytes<'a>,
    at: usize,
    end: usize,
    element: &'a [u8],
    depth_left: u8,
}

impl<'a> Model for Elements<'a> {
    ghost use Rattle.dbus_values.specs.States.{ElementsState, SomeElementsAreLeft};

    ghost Value = { ElementsState };

    ghost view = { λ s. record {
      order = s.source.order;
      bytes = s.source.bytes.now;
      at = s.at;
      end = s.end;
      type = s.element.now;
      depth_left = s.depth_left;
    } };

    ghost invariant = { λ s. SomeElementsAreLeft (record {
      order = s.source.order;
      bytes = s.source.bytes.now;
      at = s.at;
      end = s.end;
      type = s.element.now;
      depth_left = s.depth_left;
    }) };
}

impl<'a> Elements<'a> {
    ghost use Rattle.dbus_value_model.specs.Spelling.{spellings};
    ghost use Rattle.dbus_values.specs.States.{AreNumbersIn, ElementsAreLeft, IsOfNoNumbers, SomeElementsAreLeft};

    /// The elements of a run in the bytes, which have this type. At most `depth_left` containers
    /// may be open in each.
    pub(crate) fn new(
        source: &MessageBytes<'a>,
        run: Run,
        element: &'a [u8],
        depth_left: u8,
    ) -> Elements<'a>
        requires { SomeElementsAreLeft (record {
          order = source.now.order;
          bytes = source.now.bytes.now;
          at = run.first;
          end = run.end;
          type = element.now;
          depth_left = depth_left;
        }) }
        ensures { result ≡ record {
          order = source.now.order;
          bytes = source.now.bytes.now;
          at = run.first;
          end = run.end;
          type = element.now;
          depth_left = depth_left;
        } }
    {
        Elements {
            source: *source,
            at: run.first,
            end: run.end,
            element,
            depth_left,
        }
    }

    /// The same elements, to be seen once more.
    pub fn again(&self) -> Elements<'a>
        ensures { result ≡ self.now }
    {
        Elements {
            source: self.source,
            at: self.at,
            end: self.end,
            element: self.element,
            depth_left: self.depth_left,
        }
    }

    /// The elements' one type, as text. D-Bus Specification, "Type System".
    pub fn types(&self) -> &'a [u8]
        ensures { result.now ≡ self.now.type }
    {
        self.element
    }

    /// The byte order of each number. D-Bus Specification, "Message Format".
    pub fn order(&self) -> Order
        ensures { result ≡ self.now.order }
    {
        self.source.order
    }

    /// The number of bytes of the elements that are left, with all padding. It counts no elements.
    /// D-Bus Specification, "Marshaling (Wire Format)".
    pub fn bytes_left(&self) -> usize
        ensures { (xs : ValueTrees) (rest : List ℕ) → ElementsAreLeft self.now xs rest →
            result ≡ length (spellings self.now.order self.now.at xs) }
    {
        self.end - self.at
    }

    /// The bytes of the numbers that are left, one number after another, each in the order that
    /// [`Elements::order`] gives. `None` if the elements are no numbers. D-Bus Specification,
    /// "Marshaling (Wire Format)".
    ///
    /// ```rust
    /// use dbus_message::{MessageView, ValueView};
    ///
    /// for value in MessageView::of(bytes)?.body() {
    ///     if let ValueView::Array(elements) = value {
    ///         let order = elements.order();
    ///         if elements.types() == b"u".as_slice() {
    ///             for number in elements.number_bytes().unwrap_or(&[]).chunks_exact(4) {
    ///                 println!(rt; "{}", order.u32_at(number, 0))?;
    ///             }
    ///         }
    ///     }
    /// }
    /// ```
    pub fn number_bytes(&self) -> Option<&'a [u8]>
        ensures { (xs : ValueTrees) (rest : List ℕ) → ElementsAreLeft self.now xs rest →
            MatchOption result (IsOfNoNumbers self.now.type) (λ bytes.
            AreNumbersIn self.now.order self.now.type xs bytes.now) }
    {
        let width = number_width(self.element[0]);
        if width == 0 {
            return None;
        }
        if self.at == self.end {
            return Some(&[]);
        }
        let start = self.at + gap(width, self.at);
        Some(&self.source.bytes[start..self.end])
    }
}

impl<'a> Iterator for Elements<'a> {
    ghost use Rattle.std.specs.Iterator.{at_most};
    ghost use Rattle.dbus_values.specs.Seen.{PassesElement};

    type Item = ValueView<'a>;

    ghost next_gives = { PassesElement };

    // Each element has a byte at least.
    ghost remaining = { λ s. at_most (s.end - s.at) };

    /// The next element, or `None` if no element is left.
    fn next(&mut self) -> Option<ValueView<'a>> {
        if self.at == self.end {
            return None;
        }
        let spot = Spot {
            at: self.at,
            types: self.element,
            lengths: &[],
            depth_left: self.depth_left,
        };
        let (seen, after) = pass(&self.source, &spot);
        self.at = after;
        Some(seen)
    }
}
