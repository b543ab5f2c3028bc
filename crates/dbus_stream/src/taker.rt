//! What takes the bytes of messages.
ghost use Rattle.std.specs.Prelude.{◌≡◌, ◌≤◌, ◌^◌, ℕ, List, length, IfOk};
ghost use Rattle.dbus_stream.specs.Taking.{Taking, Takes};

use crate::stream_fault::StreamFault;

/// What takes the bytes of one message after another, in pieces of any length, and gives something
/// of each message: the message itself, its length, or what is validated of it. A [`crate::Reader`]
/// hands it what it reads.
pub trait Taker: Drop {
    /// What it gives of a message.
    type Given: Drop;

    // Its limits, which bytes it holds of the message under way, what it gives of a message and
    // what it lends.
    ghost known: { Taking Self Self.Given };

    /// Takes the bytes of the piece up to the end of the message under way, and writes into `given`
    /// what it makes of that message; or the whole piece, if its end is not there yet, and then
    /// writes None there. It returns the number of bytes of the piece that were taken.
    ///
    /// `Format`: the bytes that it holds and the piece begin with no message within its limits.
    /// `Memory`: an allocation failed. Then nothing was taken. `held` is the number of bytes that
    /// it holds of the message under way.
    fn take_piece(
        &mut self,
        held: u64,
        piece: &[u8],
        given: &mut Option<Self::Given>,
    ) -> Result<usize, StreamFault>
        requires few { held ≤ 2 ^ 50 }
        ensures within { IfOk result (λ n. n ≤ length piece.now) }
        ensures limits { known.limits self.new ≡ known.limits self.old }
        ensures takes { (w : List ℕ) → known.holds self.old w → held ≡ length w →
            Takes known self.old w piece.now self.new result given.new };
}
