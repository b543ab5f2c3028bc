//! Values built from a message's bytes. D-Bus Specification, "Marshaling (Wire Format)".
#![tactic(auto)]

ghost use Rattle.std.specs.Prelude.{◌≡◌, ◌∷◌, [], nat_lt};
ghost use Rattle.dbus_unmarshal.specs.Builds.{Opens, Gathers, Closes};
ghost use Rattle.dbus_unmarshal.specs.BuildLaws.{none_gathered, more_gathered, whole_built};

use crate::gathered::{Builder, Gathered};
use crate::numbers::{number_at, numbers_up_to};
use crate::opening::{element_type, open_elements, open_entry, open_struct, open_variant};
use crate::placing::{built, place};
use crate::texts::{long_text_at, short_text_at};
use dbus_value_model::Value;
use dbus_walk::{Container, MessageBytes, Run, Spot, Visitor};
use std::alloc::{AllocError, Allocator};

impl<A: Allocator + Copy> Visitor for Builder<A> {
    type Many = Gathered<A>;

    type Stop = AllocError;

    ghost ready = { λ _ _. Unit {0} };

    ghost strokes = { λ _ size. nat_lt 0 size };

    ghost one = { λ _ m _ _ v later _. Gathers m (v ∷ []) later };

    ghost many = { λ _ m _ _ xs later _. Gathers m xs later };

    ghost opens = { λ _ m _ _ v none _. Opens m v none };

    ghost closes = { λ _ m held v later _. Closes m held v later };

    ghost parted = { λ _ _ _. Unit {0} };

    #[inline]
    fn at_one_stroke(_code: u8, size: u8) -> bool
        ensures { result ≡ nat_lt 0 size }
    {
        size > 0
    }

    #[inline]
    fn number(
        &mut self,
        gathered: &mut Gathered<A>,
        source: &MessageBytes<'_>,
        spot: &Spot<'_>,
        start: usize,
        _size: u8,
    ) -> Result<(), AllocError> {
        place(
            self.alloc,
            gathered,
            number_at(source, start, spot.types[0]),
        )
    }

    fn long_text(
        &mut self,
        gathered: &mut Gathered<A>,
        source: &MessageBytes<'_>,
        spot: &Spot<'_>,
        start: usize,
        size: usize,
    ) -> Result<(), AllocError> {
        let made = long_text_at(self.alloc, source, spot, start, size)?;
        place(self.alloc, gathered, made)
    }

    fn short_text(
        &mut self,
        gathered: &mut Gathered<A>,
        source: &MessageBytes<'_>,
        spot: &Spot<'_>,
        size: usize,
    ) -> Result<(), AllocError> {
        let made = short_text_at(self.alloc, source, spot, size)?;
        place(self.alloc, gathered, made)
    }

    fn whole_array(
        &mut self,
        gathered: &mut Gathered<A>,
        source: &MessageBytes<'_>,
        spot: &Spot<'_>,
        run: Run,
    ) -> Result<(), AllocError> {
        // Of all numbers only a BYTE has one byte.
        if run.size == 1 {
            let bytes = Vec::from_slice(self.alloc, &source.bytes[run.first..run.end])?;
            return place(self.alloc, gathered, Value::Bytes(bytes));
        }
        let item = element_type(gathered)?;
        let held = Spot {
            at: run.first,
            types: &spot.types[1..],
            lengths: &[],
            depth_left: spot.depth_left - 1,
        };
        let values = numbers_up_to(self.alloc, source, &held, run.end, run.size)?;
        place(self.alloc, gathered, Value::Array(item, values))
    }

    fn open_array(
        &mut self,
        gathered: &Gathered<A>,
        source: &MessageBytes<'_>,
        _spot: &Spot<'_>,
        start: usize,
    ) -> Result<Gathered<A>, AllocError> {
        let size = source.order.u32_at(source.bytes, start) as usize;
        open_elements(self.alloc, gathered, size)
    }

    #[inline]
    fn open(
        &mut self,
        gathered: &Gathered<A>,
        kind: Container,
        types: &[u8],
        _start: usize,
        _length: usize,
    ) -> Result<Gathered<A>, AllocError> {
        match kind {
            Container::Struct => open_struct(self.alloc, gathered),
            Container::Entry => open_entry(gathered),
            _ => open_variant(self.alloc, types),
        }
    }

    #[inline]
    fn close(
        &mut self,
        gathered: &mut Gathered<A>,
        _kind: Container,
        held: Gathered<A>,
        _length: usize,
    ) -> Result<(), AllocError> {
        let made = built(self.alloc, held)?;
        place(self.alloc, gathered, made)
    }

    #[inline]
    fn part(&mut self, _is_first: bool, _length: usize) {}

    ghost none = { λ _ m _ _. none_gathered m };

    ghost more = { λ _ _ _ _ m gathered later _ _ _ done v first _ _ second.
        more_gathered m gathered later done v first second };

    ghost whole = { λ _ _ _ _ m none held later _ _ _ v xs _ opens has many closes.
        whole_built m none held later v xs opens has many closes };
}
