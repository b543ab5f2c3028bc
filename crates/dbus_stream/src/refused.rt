//! What was dropped of a refused message, and how many bytes it has.
ghost use Rattle.std.specs.Prelude.{◌≡◌, ◌+◌, ◌<◌, ◌≤◌, ◌^◌, ◌++◌, ℕ, List, length, get_or, IfSome, None};
ghost use Rattle.dbus_header.specs.MessageOutcomes.{IsPartial};
ghost use Rattle.dbus_value_model.specs.declared.limits.Limits.{Limits};
ghost use Rattle.dbus_message_model.specs.Messages.{order_byte};
ghost use Rattle.dbus_stream.specs.Dropping.{AreInside, HasDropped, Sizes};
ghost use Rattle.dbus_stream.specs.StatedSizes.{StatesNone, StatesSize};

use dbus_message_model::order_named;
use dbus_value_model::{Limits, Order, padding_length};

/// What was dropped of a refused message.
#[derive(Clone, Copy)]
pub(crate) struct Refused {
    // The first bytes that were dropped, at most 16.
    front: [u8; 16],
    /// How many were dropped.
    pub(crate) dropped: u64,
}

/// Whether the bytes of a message are there, by the size that its first 16 bytes state.
#[derive(Clone, Copy)]
pub(crate) enum Size {
    /// It has so many bytes, and they are there.
    There(u64),
    /// More bytes are wanted: so many are not there, or they do not state its size yet.
    Wanted,
    /// They state no size within the limits.
    Unstated,
}

impl Refused {
    /// Of a message of which no byte was dropped.
    pub(crate) fn nothing() -> Refused
        ensures { result.dropped ≡ 0 }
    {
        Refused {
            front: [0; 16],
            dropped: 0,
        }
    }

    /// These bytes are dropped too.
    pub(crate) fn drop_bytes(&mut self, bytes: &[u8])
        requires { self.old.dropped + length bytes.now < 2 ^ 64 }
        ensures dropped { (gone : List ℕ) → HasDropped self.old gone →
            HasDropped self.new (gone ++ bytes.now) }
        // Bytes that begin a message, and are none, are no more than it has.
        ensures inside { (limits : Limits) → IsPartial limits bytes.now →
            AreInside limits bytes.now }
    {
        let noted = self.dropped.min(16) as usize;
        let more = bytes.len().min(16 - noted);
        self.front[noted..noted + more].copy_from_slice(&bytes[..more]);
        self.dropped += bytes.len() as u64;
    }

    /// Whether the bytes that were dropped are all of the message.
    pub(crate) fn size(&self, limits: Limits) -> Size
        ensures { (gone : List ℕ) → HasDropped self.now gone → Sizes limits gone result }
    {
        if self.dropped == 0 {
            return Size::Unstated;
        }
        let Some(order) = order_named(u32::from(self.front[0])) else {
            return Size::Unstated;
        };
        if self.dropped < 16 {
            return Size::Wanted;
        }
        let Some(size) = self.size_by(order, limits) else {
            return Size::Unstated;
        };
        if size > self.dropped {
            return Size::Wanted;
        }
        Size::There(size)
    }

    /// The size that the bytes state that were dropped, if these are 16 and it is within the limits.
    pub(crate) fn stated(&self, limits: Limits) -> Option<u64>
        ensures states { IfSome result (λ size. (gone : List ℕ) → HasDropped self.now gone →
            StatesSize limits gone size) }
        ensures none { result ≡ None → (gone : List ℕ) → HasDropped self.now gone →
            (size : ℕ) → StatesSize limits gone size → ⊥ }
    {
        if self.dropped < 16 {
            return None;
        }
        let order = order_named(u32::from(self.front[0]))?;
        self.size_by(order, limits)
    }

    // The same of 16 bytes and more in this order.
    fn size_by(&self, order: Order, limits: Limits) -> Option<u64>
        requires many { 16 ≤ self.now.dropped }
        requires first { get_or self.now.front 0 0 ≡ order_byte order }
        ensures states { IfSome result (λ size. (gone : List ℕ) → HasDropped self.now gone →
            StatesSize limits gone size) }
        ensures none { result ≡ None → (gone : List ℕ) → HasDropped self.now gone →
            StatesNone limits gone }
    {
        let fields = order.u32_at(&self.front, 12);
        let body = order.u32_at(&self.front, 4);
        if fields > limits.array {
            return None;
        }
        let end = 16 + u64::from(fields);
        let size = end + u64::from(padding_length(8, end)) + u64::from(body);
        if size > u64::from(limits.message) {
            return None;
        }
        Some(size)
    }
}
