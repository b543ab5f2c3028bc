//! The descriptors of what came.
#![tactic(auto)]

ghost use Rattle.std.specs.Prelude.{◌≡◌, ◌≤◌, ◌+◌, length, IfErr, OnErr, OnOk, vec_capacity, vec_len};
ghost use Rattle.dbus_connection.specs.Handing.{Hands, Lacks};
ghost use Rattle.dbus_connection.specs.Shown.{told};
ghost use Rattle.dbus_descriptors.specs.Kept.{kept};

use crate::event::Event;
use dbus_descriptors::{Descriptors, MessageEnd, NotTaken};

/// Appends a message's own descriptors to others, or says what is nobody's, by what came of bytes
/// that end there.
pub(crate) fn hand_out<D: Drop>(
    event: &Event<'_>,
    end: u64,
    descriptors: &mut Descriptors<D>,
    others: &mut Vec<D>,
) -> Result<(), NotTaken>
    requires room { vec_len others.old + length (kept descriptors.old).waiting ≤ vec_capacity others.old }
    ensures handed { OnOk result (Hands end (told event.now)
        (kept descriptors.old) (kept descriptors.new) others.old.items others.new.items) }
    ensures lacks { IfErr result (λ why.
        Lacks end (told event.now) (kept descriptors.old) (kept descriptors.new) why) }
    ensures others { OnErr result (others.new.items ≡ others.old.items) }
{
    match event {
        Event::Message(message) => {
            let count = message.fds;
            if count > 0 {
                return descriptors.take(MessageEnd { end, count }, others);
            }
        }
        Event::Passed(passed) => descriptors.pass(end.saturating_add(passed.length)),
        Event::Begun(begun) => {
            if !begun.agreed {
                descriptors.pass(u64::MAX);
            }
        }
        _ => {}
    }
    Ok(())
}
