//! What words set beside the command.
ghost use Rattle.std.specs.Prelude.{◌≡◌};
ghost use Rattle.cli_options.specs.Limiting.{ask_more};

use crate::resync::Resync;
use crate::window::Window;
use dbus_handshake_input::Side;
use dbus_value_model::Limits;

/// How the messages of the input are read, and what follows one that is refused.
#[derive(Clone, Copy, PartialEq, Eq, Debug)]
pub struct Settings {
    /// The limits that the messages are read under.
    pub limits: Limits,
    /// Whether what is told of refused messages, the last line, and what `count` and `calls` write
    /// is JSON, RFC 8259.
    pub as_json: bool,
    /// Whether a refused message, or a refused rule, is explained.
    pub explains: bool,
    /// Whether the messages after a refused one are read too.
    pub keeps_going: bool,
    /// Whether it is looked for then where messages begin again.
    pub resync: Resync,
    /// The side whose handshake comes before the messages, if one does.
    pub handshake: Option<Side>,
    /// Which of the messages that the command selects are written.
    pub window: Window,
}

impl Settings {
    /// Whether they ask for more than limits and a handshake: for JSON, for explanations, for the
    /// messages after a refused one, or for a window that leaves some messages out.
    pub fn ask_more(&self) -> bool
        ensures { result ≡ ask_more self.now }
    {
        self.as_json
            || self.explains
            || self.keeps_going
            || self.window.skip > 0
            || self.window.limit.is_some()
    }
}
