//! Why a line is refused.
#![tactic(auto)]

use dbus_json_lines::JsonReason;
use std::fmt;

/// Why a line is refused.
#[derive(Clone, Copy, PartialEq, Eq, Debug)]
pub enum LineReason {
    /// It has more bytes than a line may have.
    TooLong,
    /// It spells no message that is valid within the limits, for this reason.
    Unspelled(JsonReason),
}

/// Why a line is refused, and where it shows that.
#[derive(Clone, Copy, PartialEq, Eq, Debug)]
pub struct Refusal {
    /// Why.
    pub reason: LineReason,
    /// The place, in bytes from the start of the line, as in `dbus_json_lines::LineFault`. It is
    /// the first byte past those that a line may have if it is too long.
    pub at: usize,
}

/// The name of the reason, as `Range`.
impl fmt::Display for LineReason {
    ghost use Rattle.std.specs.Prelude.{Some};
    ghost use Rattle.cli_encode.specs.Outcomes.{line_reason_text};

    ghost output = { λ reason. Some (line_reason_text reason) };

    fn fmt<W: fmt::Write>(&self, f: &mut fmt::Formatter<W>) -> fmt::Result {
        match self {
            LineReason::TooLong => f.write_str("TooLong"),
            LineReason::Unspelled(reason) => write!(f, "{reason}"),
        }
    }
}
