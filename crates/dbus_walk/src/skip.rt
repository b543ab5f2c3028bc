//! Values passed over. D-Bus Specification, "Marshaling (Wire Format)".
#![tactic(auto)]

ghost use Rattle.std.specs.Prelude.{◌≡◌, ℕ, List, true};
ghost use Rattle.dbus_value_model.specs.Values.{ValueTree};
ghost use Rattle.dbus_types.specs.SignatureCodes.{AreLengths};
ghost use Rattle.dbus_walk.specs.Standing.{StandsAt, StandsThere, end_of};

use crate::container::Container;
use crate::spot::{MessageBytes, Run, Spot};
use crate::visitor::Visitor;
use crate::walk::walk_value;
use std::convert::Infallible;

/// Gathers nothing of the values that it visits. It takes every array at one stroke.
#[derive(Clone, Copy)]
pub struct Skip;

impl Visitor for Skip {
    type Many = ();

    type Stop = Infallible;

    ghost ready = { λ _ _. Unit {0} };

    ghost strokes = { λ _ _. true };

    ghost one = { λ _ _ _ _ _ _ _. Unit {0} };

    ghost many = { λ _ _ _ _ _ _ _. Unit {0} };

    ghost opens = { λ _ _ _ _ _ _ _. Unit {0} };

    ghost closes = { λ _ _ _ _ _ _. Unit {0} };

    ghost parted = { λ _ _ _. Unit {0} };

    #[inline]
    fn at_one_stroke(_code: u8, _size: u8) -> bool {
        true
    }

    #[inline]
    fn number(
        &mut self,
        _gathered: &mut (),
        _source: &MessageBytes<'_>,
        _spot: &Spot<'_>,
        _start: usize,
        _size: u8,
    ) -> Result<(), Infallible> {
        Ok(())
    }

    #[inline]
    fn long_text(
        &mut self,
        _gathered: &mut (),
        _source: &MessageBytes<'_>,
        _spot: &Spot<'_>,
        _start: usize,
        _size: usize,
    ) -> Result<(), Infallible> {
        Ok(())
    }

    #[inline]
    fn short_text(
        &mut self,
        _gathered: &mut (),
        _source: &MessageBytes<'_>,
        _spot: &Spot<'_>,
        _size: usize,
    ) -> Result<(), Infallible> {
        Ok(())
    }

    #[inline]
    fn whole_array(
        &mut self,
        _gathered: &mut (),
        _source: &MessageBytes<'_>,
        _spot: &Spot<'_>,
        _run: Run,
    ) -> Result<(), Infallible> {
        Ok(())
    }

    #[inline]
    fn open_array(
        &mut self,
        _gathered: &(),
        _source: &MessageBytes<'_>,
        _spot: &Spot<'_>,
        _start: usize,
    ) -> Result<(), Infallible> {
        Ok(())
    }

    #[inline]
    fn open(
        &mut self,
        _gathered: &(),
        _kind: Container,
        _types: &[u8],
        _start: usize,
        _length: usize,
    ) -> Result<(), Infallible> {
        Ok(())
    }

    #[inline]
    fn close(
        &mut self,
        _gathered: &mut (),
        _kind: Container,
        _held: (),
        _length: usize,
    ) -> Result<(), Infallible> {
        Ok(())
    }

    #[inline]
    fn part(&mut self, _is_first: bool, _length: usize) {}

    ghost none = { λ _ _ _ _. tt };

    ghost more = { λ _ _ _ _ _ _ _ _ _ _ _ _ _ _ _ _. tt };

    ghost whole = { λ _ _ _ _ _ _ _ _ _ _ _ _ _ _ _ _ _ _. tt };
}

/// The offset after the value at a spot. The elements of arrays are not gone through.
pub fn skip_value(source: &MessageBytes<'_>, spot: &Spot<'_>) -> usize
    requires stands { StandsThere source.now spot.now }
    requires noted { AreLengths spot.now.types.now spot.now.lengths.now }
    ensures { (v : ValueTree) (rest : List ℕ) → StandsAt source.now spot.now v rest →
        result ≡ end_of source.now spot.now v }
{
    let mut skip = Skip;
    match walk_value(&mut skip, &mut (), source, spot) {
        Ok(after) => after,
        Err(never) => match never {},
    }
}
