//! One law for the handshake. Its function does nothing when it runs: its contract is the law.
#![tactic(auto)]

ghost use Rattle.dbus_handshake_input.specs.Alike.{OneHandshake, OnePassing};

use crate::visitor::LineVisitor;
use dbus_device::Source;

/// What one side says at the start of an input is one thing. Two calls of [`read_handshake`] that
/// read the same input, and for which memory suffices and no read fails, answer the same: the size
/// of the handshake, or the place and the reason why there is none. Their visitors hear the same
/// lines; after a handshake both sources have the same bytes left, which are of the packets that
/// they were of. The same holds of two calls of [`pass_handshake`], but for the lines and their
/// size.
///
/// [`read_handshake`]: crate::read_handshake
/// [`pass_handshake`]: crate::pass_handshake
pub fn one_handshake<R: Source, S: Source, V: LineVisitor, U: LineVisitor>()
    ensures read { OneHandshake R.left R.calls R.packets R.packet
        S.left S.calls S.packets S.packet V.hears U.hears }
    ensures passed { OnePassing R.left R.calls R.packets R.packet
        S.left S.calls S.packets S.packet }
{}
