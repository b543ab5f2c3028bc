//! A message of an input, and which of its messages it is.
ghost use Rattle.std.specs.Prelude.{◌≡◌};
ghost use Rattle.cli_run.specs.Output.{told_place};

use dbus_validate::Validated;
use dbus_value_model::Limits;

/// The place of a message among the messages of its input.
#[derive(Clone, Copy, Debug, PartialEq, Eq)]
pub(crate) struct MessagePlace {
    /// Its number, counted from 1.
    pub(crate) number: u64,
    /// Where it begins, in bytes from the start of the input.
    pub(crate) offset: u64,
    /// When it was captured, in nanoseconds since 1970 began in UTC, if the input says so.
    pub(crate) time: Option<u64>,
    /// Whether it came in a packet of a captured file.
    pub(crate) in_packet: bool,
}

impl MessagePlace {
    /// What is written of the place: without its time, unless times are wanted.
    pub(crate) fn told(self, times: bool) -> MessagePlace
        ensures { result ≡ told_place times self }
    {
        if times {
            self
        } else {
            MessagePlace { time: None, ..self }
        }
    }
}

/// A message of an input.
#[derive(Clone, Copy)]
pub(crate) struct Lent<'a> {
    /// Its bytes, and what is known of them since they were validated under these limits.
    pub(crate) bytes: &'a [u8],
    pub(crate) validated: Validated,
    pub(crate) limits: Limits,
    pub(crate) place: MessagePlace,
}
