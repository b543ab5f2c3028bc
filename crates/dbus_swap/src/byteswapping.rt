//! Values byteswapped in the copy. D-Bus Specification, "Marshaling (Wire Format)".
#![tactic(auto)]

ghost use Rattle.std.specs.Prelude.{◌≡◌, length, nat_lt};
ghost use Rattle.dbus_value_model.specs.Spelling.{spelling, spellings};
ghost use Rattle.dbus_value_model.specs.Values.{value_trees};
ghost use Rattle.dbus_walk.specs.Containers.{front};
ghost use Rattle.dbus_swap.specs.Byteswapping.{other, Byteswaps, Stays};
ghost use Rattle.dbus_swap.specs.ByteswapLaws.{none_byteswapped, more_byteswapped, whole_byteswapped};

use crate::byteswapper::Byteswapper;
use crate::numbers::{byteswap_4, byteswap_number, byteswap_numbers};
use dbus_walk::{Container, MessageBytes, Run, Spot, Visitor};
use std::convert::Infallible;

impl Visitor for Byteswapper<'_> {
    type Many = ();

    type Stop = Infallible;

    ghost ready = { λ t n. length t.out.now ≡ n };

    ghost strokes = { λ _ size. nat_lt 0 size };

    ghost one = { λ s _ order at v _ t.
        Byteswaps at (spelling order at v) (spelling (other order) at v) s t };

    ghost many = { λ s _ order at xs _ t.
        Byteswaps at (spellings order at (value_trees xs)) (spellings (other order) at (value_trees xs)) s t };

    ghost opens = { λ s _ order at v _ t. Byteswaps at (front order at v) (front (other order) at v) s t };

    ghost closes = { λ s _ _ _ _ t. Stays s t };

    ghost parted = { λ s _ t. Stays s t };

    #[inline]
    fn at_one_stroke(_code: u8, size: u8) -> bool
        ensures { result ≡ nat_lt 0 size }
    {
        size > 0
    }

    #[inline]
    fn number(
        &mut self,
        _gathered: &mut (),
        _source: &MessageBytes<'_>,
        _spot: &Spot<'_>,
        start: usize,
        size: u8,
    ) -> Result<(), Infallible> {
        byteswap_number(self.out, start, size);
        Ok(())
    }

    #[inline]
    fn long_text(
        &mut self,
        _gathered: &mut (),
        _source: &MessageBytes<'_>,
        _spot: &Spot<'_>,
        start: usize,
        _size: usize,
    ) -> Result<(), Infallible> {
        byteswap_4(self.out, start);
        Ok(())
    }

    #[inline]
    fn short_text(
        &mut self,
        _gathered: &mut (),
        _source: &MessageBytes<'_>,
        _spot: &Spot<'_>,
        _size: usize,
    ) -> Result<(), Infallible> {
        Ok(())
    }

    #[inline]
    fn whole_array(
        &mut self,
        _gathered: &mut (),
        _source: &MessageBytes<'_>,
        _spot: &Spot<'_>,
        run: Run,
    ) -> Result<(), Infallible> {
        byteswap_4(self.out, run.start);
        byteswap_numbers(self.out, run.first, run.end, run.size);
        Ok(())
    }

    #[inline]
    fn open_array(
        &mut self,
        _gathered: &(),
        _source: &MessageBytes<'_>,
        _spot: &Spot<'_>,
        start: usize,
    ) -> Result<(), Infallible> {
        byteswap_4(self.out, start);
        Ok(())
    }

    #[inline]
    fn open(
        &mut self,
        _gathered: &(),
        _kind: Container,
        _types: &[u8],
        _start: usize,
        _length: usize,
    ) -> Result<(), Infallible> {
        Ok(())
    }

    #[inline]
    fn close(
        &mut self,
        _gathered: &mut (),
        _kind: Container,
        _held: (),
        _length: usize,
    ) -> Result<(), Infallible> {
        Ok(())
    }

    #[inline]
    fn part(&mut self, _is_first: bool, _length: usize) {}

    ghost none = { λ s _ order at. none_byteswapped s order at };

    ghost more = { λ s before parted after _ _ _ order at place done v first stays here second.
        more_byteswapped s before parted after order at place done v first stays here second };

    ghost whole = { λ s opened filled after _ _ _ _ kind order at v xs is_of opens has many closes.
        whole_byteswapped s opened filled after kind order at v xs is_of opens has many closes };
}
