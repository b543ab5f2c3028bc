//! The lengths of messages, as their bytes come.
ghost use Rattle.std.specs.Prelude.{◌≡◌, ℕ, List};
ghost use Rattle.dbus_check.specs.Checks.{Stands, limits_of};

use crate::stream_fault::StreamFault;
use crate::taker::Taker;
use dbus_check::{Check, Checker};
use dbus_validate::validate;
use dbus_value_model::Limits;

/// Takes the bytes of messages, and gives the length of each. It holds no byte but what its checker
/// holds, and takes no memory: it has a fixed size, about 40,000 bytes.
#[derive(Drop)]
pub struct Lengths {
    limits: Limits,
    // It was handed the bytes of the message under way.
    checker: Checker,
    ghost same_limits: { limits_of checker ≡ limits },
    ghost handed: { ∥ ((held : List ℕ) × Stands checker held) ∥₁ },
}

impl Lengths {
    ghost use Rattle.std.specs.Prelude.{[]};
    ghost use Rattle.dbus_stream.specs.CheckReading.{lengths};

    /// It holds nothing, and takes messages that keep these limits.
    pub(crate) fn within(limits: Limits) -> Self
        ensures limits { lengths.limits result ≡ limits }
        ensures nothing { lengths.holds result [] }
    {
        Lengths {
            limits,
            checker: Checker::within(limits),
        }
    }
}

impl Taker for Lengths {
    ghost use Rattle.dbus_stream.specs.CheckReading.{lengths};

    type Given = u64;

    ghost known = { lengths };

    fn take_piece(
        &mut self,
        held: u64,
        piece: &[u8],
        given: &mut Option<u64>,
    ) -> Result<usize, StreamFault> {
        // So it is before each read.
        if piece.is_empty() {
            *given = None;
            return Ok(0);
        }
        // A message that lies whole in the piece is validated there.
        if held == 0 {
            if let Some(validated) = validate(piece, self.limits) {
                *given = Some(validated.length as u64);
                return Ok(validated.length);
            }
        }
        match self.checker.take(piece) {
            Check::Done(count) => {
                self.checker.restart();
                *given = Some(held + count as u64);
                Ok(count)
            }
            Check::Partial => {
                *given = None;
                Ok(piece.len())
            }
            Check::Refused(fault) => Err(StreamFault::Format(fault)),
        }
    }
}
