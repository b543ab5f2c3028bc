//! A checker of messages, of fixed size.
#![tactic(auto)]

ghost use Rattle.std.specs.Prelude.{◌≡◌, ◌++◌, [], ℕ, List};
ghost use Rattle.dbus_value_model.specs.Specification.{specification};

use crate::check::Check;
use crate::pieces::Pieces;
use dbus_value_model::{Fault, Limits};
use std::marker::Model;

/// A checker of one message after another, whose bytes come in pieces of any length. It has a fixed
/// size, about 40,000 bytes, allocates nothing, and holds no byte of a message but the signatures
/// of its body and of the variants that are open, and fewer than 20 bytes of an item that is not
/// whole. The limits of its messages are those that it was made with.
///
/// After each piece its answer is that of decoding all bytes that it took since it was made or
/// began again. A checker costs its size where it is made: hold one, and begin again with
/// [`Checker::restart`].
#[derive(Drop)]
pub struct Checker {
    limits: Limits,
    pieces: Pieces,
    refused: Option<Fault>,
}

impl Model for Checker {
    ghost use Rattle.std.specs.Prelude.{ℕ, List};
    ghost use Rattle.std.specs.Coded.{codes};
    ghost use Rattle.dbus_check.specs.Checks.{CheckerState, Stands};
    ghost use Rattle.dbus_check.specs.contracts.pieces.Pieces as inside;

    ghost Value = { CheckerState };

    ghost coded = { Prim.hlevel (codes, inside.the_row.coded) };

    ghost view = { λ c. record { limits = c.limits; pieces = c.pieces; refused = c.refused } };

    ghost invariant = { λ c. (w : List ℕ) × Stands (record { limits = c.limits; pieces = c.pieces; refused = c.refused }) w };
}

impl Checker {
    ghost use Rattle.dbus_check.specs.Checks.{Stands, Takes, IsExact, limits_of, taken};

    /// A checker as [`Checker::within`] makes it, under the limits of the specification.
    pub fn new() -> Self
        ensures stands { Stands result [] }
        ensures limits { limits_of result ≡ specification }
    {
        Checker::within(Limits::specification())
    }

    /// A checker that was handed no bytes, and takes messages that keep these limits.
    pub fn within(limits: Limits) -> Self
        ensures stands { Stands result [] }
        ensures limits { limits_of result ≡ limits }
    {
        Checker {
            limits,
            pieces: Pieces::new(limits),
            refused: None,
        }
    }

    /// Takes the piece, or its bytes up to the end of the message under way. D-Bus Specification,
    /// "Message Protocol".
    ///
    /// Of all bytes that it took since it was made or began again, and the piece: `Done` if they
    /// begin with a message within the limits, with the number of bytes of the piece that end it;
    /// those after it are not looked at. `Refused` if the next item of the message is at fault,
    /// with the fault's place, as soon as the bytes show it. `Partial` if neither holds: more bytes
    /// are wanted.
    ///
    /// After `Done` each call returns `Done(0)`, after `Refused` the same fault, until
    /// [`Checker::restart`].
    ///
    /// ```rust
    /// use dbus_message::{Check, Checker};
    ///
    /// let mut checker = Checker::new();
    /// for piece in bytes.chunks(64) {
    ///     match checker.take(piece) {
    ///         Check::Partial => {}
    ///         Check::Done(used) => println!(rt; "a message ends after {used} bytes of this piece")?,
    ///         Check::Refused(fault) => println!(rt; "{fault}")?,
    ///     }
    /// }
    /// ```
    pub fn take(&mut self, piece: &[u8]) -> Check
        ensures answers { (w : List ℕ) → Stands self.old w →
            Takes (limits_of self.old) w piece.now result }
        ensures exact { (w : List ℕ) → Stands self.old w →
            IsExact (limits_of self.old) w piece.now result }
        ensures stands { (w : List ℕ) → Stands self.old w →
            Stands self.new (w ++ taken piece.now result) }
        ensures limits { limits_of self.new ≡ limits_of self.old }
    {
        if let Some(fault) = self.refused {
            return Check::Refused(fault);
        }
        match self.pieces.take(piece) {
            Ok(n) => {
                if self.pieces.is_live() {
                    return Check::Partial;
                }
                Check::Done(n)
            }
            Err(fault) => {
                self.refused = Some(fault);
                Check::Refused(fault)
            }
        }
    }

    /// Begins again, under the same limits: nothing was handed in, whatever it returned before.
    pub fn restart(&mut self)
        ensures stands { Stands self.new [] }
        ensures limits { limits_of self.new ≡ limits_of self.old }
    {
        self.pieces.restart(self.limits);
        self.refused = None;
    }
}
