//! The items of values of any type, gathered from a message's bytes. D-Bus Specification,
//! "Marshaling (Wire Format)".
#![tactic(auto)]

ghost use Rattle.std.specs.Prelude.{◌≡◌, ℕ, ◌+◌, ◌<◌, ◌^◌, nat_lt};
ghost use Rattle.dbus_texts.specs.Types.{sigs};
ghost use Rattle.dbus_types.specs.Alignments.{alignment_of};
ghost use Rattle.dbus_value_model.specs.Bytes.{gap_to};
ghost use Rattle.dbus_value_model.specs.declared.order.Order.{Order};
ghost use Rattle.dbus_value_model.specs.Values.{ValueTree, type_of, types_of, value_trees};
ghost use Rattle.dbus_walk.specs.Containers.{IsOf, parts};
ghost use Rattle.dbus_walk.specs.declared.container.Container.TheVariants.{Array};
ghost use Rattle.dbus_flatten.specs.Flattening.{item, flat, flats, Closes, Gains, Opens};
ghost use Rattle.dbus_flatten.specs.FlattenerLaws.{none_flat, more_flat, whole_flat};

use crate::flat_item::FlatItem;
use crate::flattener::Flattener;
use crate::numbers::number_at;
use dbus_types::boundary;
use dbus_value_model::gap;
use dbus_walk::{Container, MessageBytes, Run, Spot, Visitor};
use std::convert::Infallible;

impl Visitor for Flattener<'_> {
    // The place of a container's item.
    type Many = usize;

    type Stop = Infallible;

    ghost ready = { λ _ length. length < 2 ^ 63 };

    ghost strokes = { λ _ size. nat_lt 0 size };

    ghost one = { λ s m order at v later t. Gains s m (flat order at v) later t };

    ghost many = { λ s m order at xs later t. Gains s m (flats order at (value_trees xs)) later t };

    ghost opens = { λ s _ order at v place t. Opens s order at v place t };

    ghost closes = { λ s m place _ later t. Closes s m place later t };

    ghost parted = { λ s _ t. t ≡ s };

    #[inline(always)]
    fn at_one_stroke(_code: u8, size: u8) -> bool
        ensures { result ≡ nat_lt 0 size }
    {
        0 < size
    }

    #[inline(always)]
    fn number(
        &mut self,
        _gathered: &mut usize,
        source: &MessageBytes<'_>,
        spot: &Spot<'_>,
        start: usize,
        size: u8,
    ) -> Result<(), Infallible> {
        self.push(FlatItem {
            number: number_at(source, start, size),
            offset: start as u64,
            length: u64::from(size),
            code: u32::from(spot.types[0]),
            element: 0,
        });
        Ok(())
    }

    #[inline(always)]
    fn long_text(
        &mut self,
        _gathered: &mut usize,
        _source: &MessageBytes<'_>,
        spot: &Spot<'_>,
        start: usize,
        size: usize,
    ) -> Result<(), Infallible> {
        self.push(FlatItem {
            number: 0,
            offset: (start + 4) as u64,
            length: size as u64,
            code: u32::from(spot.types[0]),
            element: 0,
        });
        Ok(())
    }

    #[inline(always)]
    fn short_text(
        &mut self,
        _gathered: &mut usize,
        _source: &MessageBytes<'_>,
        spot: &Spot<'_>,
        size: usize,
    ) -> Result<(), Infallible> {
        self.push(FlatItem {
            number: 0,
            offset: (spot.at + 1) as u64,
            length: size as u64,
            code: u32::from(b'g'),
            element: 0,
        });
        Ok(())
    }

    #[inline(always)]
    fn whole_array(
        &mut self,
        _gathered: &mut usize,
        _source: &MessageBytes<'_>,
        spot: &Spot<'_>,
        run: Run,
    ) -> Result<(), Infallible> {
        self.push(FlatItem {
            number: 0,
            offset: run.first as u64,
            length: (run.end - run.first) as u64,
            code: u32::from(b'a'),
            element: u32::from(spot.types[1]),
        });
        Ok(())
    }

    #[inline(always)]
    fn open_array(
        &mut self,
        _gathered: &usize,
        source: &MessageBytes<'_>,
        spot: &Spot<'_>,
        start: usize,
    ) -> Result<usize, Infallible> {
        let place = self.count;
        let after = start + 4;
        let code = spot.types[1];
        let first = after + gap(boundary(code), after);
        self.push(FlatItem {
            number: 0,
            offset: first as u64,
            length: u64::from(source.order.u32_at(source.bytes, start)),
            code: u32::from(b'a'),
            element: u32::from(code),
        });
        Ok(place)
    }

    #[inline(always)]
    fn open(
        &mut self,
        _gathered: &usize,
        kind: Container,
        types: &[u8],
        start: usize,
        _length: usize,
    ) -> Result<usize, Infallible> {
        let place = self.count;
        self.push(opened(kind, types, start));
        Ok(place)
    }

    #[inline(always)]
    fn close(
        &mut self,
        _gathered: &mut usize,
        _kind: Container,
        held: usize,
        _length: usize,
    ) -> Result<(), Infallible> {
        self.count_from(held);
        Ok(())
    }

    #[inline(always)]
    fn part(&mut self, _is_first: bool, _length: usize) {}

    ghost none = { λ s m order at. none_flat s m order at };

    ghost more = { λ s before parted after m gathered later order at place done v first between here second.
        more_flat s before parted after m gathered later order at place done v first between here second };

    ghost whole = { λ s opened filled after m none held later kind order at v xs is_of opens has many closes.
        whole_flat s opened filled after m none held later kind order at v xs is_of opens has many closes };
}

// The item of a container that opens, with no items within it yet.
#[inline(always)]
fn opened(kind: Container, types: &[u8], start: usize) -> FlatItem
    requires kind { kind ≡ Array → ⊥ }
    requires small { start < 2 ^ 63 }
    ensures { (order : Order) (at : ℕ) (v : ValueTree) → IsOf kind v → sigs (types_of (parts v)) ≡ types.now →
        start ≡ at + gap_to (alignment_of (type_of v)) at → result ≡ item order at v 0 }
{
    let mut item = FlatItem {
        number: 0,
        offset: start as u64,
        length: 0,
        code: u32::from(b'('),
        element: 0,
    };
    match kind {
        Container::Variant => {
            item.offset += 1;
            item.length = types.len() as u64;
            item.code = u32::from(b'v');
        }
        Container::Entry => item.code = u32::from(b'{'),
        Container::Array | Container::Struct => {}
    }
    item
}
