//! The walk over values that are written. D-Bus Specification, "Marshaling (Wire Format)".
#![tactic(auto)]

ghost use Rattle.std.specs.Prelude.{◌≡◌, ◌==◌};
ghost use Rattle.dbus_value_model.specs.Values.{value_trees};
ghost use Rattle.dbus_value_text.specs.Forms.{part_text};
ghost use Rattle.dbus_value_text.specs.Writing.{Writes, WritesSome, WritesAll, Opens};
ghost use Rattle.dbus_value_text.specs.WritingLaws.{none_written, more_written, whole_written};

use crate::value_form::ValueForm;
use crate::writer::Writer;
use dbus_show::Draft;
use dbus_walk::{Container, MessageBytes, Run, Spot, Visitor, text_in};
use std::convert::Infallible;

impl<D: Draft, F: ValueForm> Visitor for Writer<'_, D, F> {
    type Many = ();

    type Stop = Infallible;

    ghost ready = { λ _ _. Unit {0} };

    ghost strokes = { λ code _. code == 121 };

    ghost one = { λ s _ _ _ v _ t. WritesSome D.gains s (F.is_text v) t };

    ghost many = { λ s _ _ _ xs _ t. WritesAll D.gains F.is_text F.separator_text s (value_trees xs) t };

    ghost opens = { λ s _ _ _ v _ t. Opens D.gains s v (F.open_text v) t };

    ghost closes = { λ s _ _ v _ t. Writes D.gains s (F.close_text v) t };

    ghost parted = { λ s is_first t. Writes D.gains s (part_text F.separator_text is_first) t };

    #[inline]
    fn at_one_stroke(code: u8, _size: u8) -> bool
        ensures { result ≡ (code == 121) }
    {
        code == b'y'
    }

    #[inline]
    fn number(
        &mut self,
        _gathered: &mut (),
        source: &MessageBytes<'_>,
        spot: &Spot<'_>,
        start: usize,
        _size: u8,
    ) -> Result<(), Infallible> {
        F::number(self.draft, source, start, spot.types[0]);
        Ok(())
    }

    #[inline]
    fn long_text(
        &mut self,
        _gathered: &mut (),
        source: &MessageBytes<'_>,
        spot: &Spot<'_>,
        start: usize,
        size: usize,
    ) -> Result<(), Infallible> {
        F::text(
            self.draft,
            spot.types[0],
            text_in(source.bytes, start + 4, size),
        );
        Ok(())
    }

    #[inline]
    fn short_text(
        &mut self,
        _gathered: &mut (),
        source: &MessageBytes<'_>,
        spot: &Spot<'_>,
        size: usize,
    ) -> Result<(), Infallible> {
        F::text(self.draft, b'g', text_in(source.bytes, spot.at + 1, size));
        Ok(())
    }

    #[inline]
    fn whole_array(
        &mut self,
        _gathered: &mut (),
        source: &MessageBytes<'_>,
        _spot: &Spot<'_>,
        run: Run,
    ) -> Result<(), Infallible> {
        F::bytes(self.draft, &source.bytes[run.first..run.end]);
        Ok(())
    }

    #[inline]
    fn open_array(
        &mut self,
        _gathered: &(),
        _source: &MessageBytes<'_>,
        spot: &Spot<'_>,
        _start: usize,
    ) -> Result<(), Infallible> {
        F::open(self.draft, Container::Array, spot.types);
        Ok(())
    }

    #[inline]
    fn open(
        &mut self,
        _gathered: &(),
        kind: Container,
        types: &[u8],
        _start: usize,
        _length: usize,
    ) -> Result<(), Infallible> {
        F::open(self.draft, kind, types);
        Ok(())
    }

    #[inline]
    fn close(
        &mut self,
        _gathered: &mut (),
        kind: Container,
        _held: (),
        _length: usize,
    ) -> Result<(), Infallible> {
        F::close(self.draft, kind);
        Ok(())
    }

    #[inline]
    fn part(&mut self, is_first: bool, _length: usize) {
        self.draft
            .push_str(if is_first { "" } else { F::separator() });
    }

    #[inline]
    fn wants_no_more(&self, _gathered: &()) -> bool {
        F::is_past(&*self.draft)
    }

    ghost none = { λ s _ _ _. none_written D.gains D.joins F.is_text F.separator_text D.nothing s };

    ghost more = { λ s before parted after _ _ _ _ _ _ done v first between _ second.
        more_written D.gains D.joins F.is_text F.separator_text s before parted after done v first between second };

    ghost whole = { λ s opened filled after _ _ _ _ _ _ _ v xs _ opens has many closes.
        whole_written D.gains D.joins F.is_text F.separator_text F.open_text F.close_text F.whole
        s opened filled after v xs opens has many closes };
}
