//! The fault of a capture and its reason as text.
ghost use Rattle.std.specs.Prelude.{Some};
ghost use Rattle.dbus_capture.specs.CaptureTexts.{capture_reason_text, capture_fault_text};

use crate::fault::{CaptureFault, CaptureReason};
use std::fmt;

/// The name of the reason, as `PacketCut`.
impl fmt::Display for CaptureReason {
    ghost output = { λ reason. Some (capture_reason_text reason) };

    fn fmt<W: fmt::Write>(&self, f: &mut fmt::Formatter<W>) -> fmt::Result {
        match self {
            CaptureReason::Magic => f.write_str("Magic"),
            CaptureReason::Version => f.write_str("Version"),
            CaptureReason::LinkType => f.write_str("LinkType"),
            CaptureReason::Lengths => f.write_str("Lengths"),
            CaptureReason::PacketCut => f.write_str("PacketCut"),
            CaptureReason::BlockLength => f.write_str("BlockLength"),
            CaptureReason::BlockLengths => f.write_str("BlockLengths"),
            CaptureReason::OrderMark => f.write_str("OrderMark"),
            CaptureReason::OptionLength => f.write_str("OptionLength"),
            CaptureReason::TooManyInterfaces => f.write_str("TooManyInterfaces"),
            CaptureReason::NoInterface => f.write_str("NoInterface"),
            CaptureReason::Truncated => f.write_str("Truncated"),
        }
    }
}

/// The reason and the place, as `PacketCut at offset 32`.
impl fmt::Display for CaptureFault {
    ghost output = { λ fault. Some (capture_fault_text fault) };

    fn fmt<W: fmt::Write>(&self, f: &mut fmt::Formatter<W>) -> fmt::Result {
        let at = self.at;
        let reason = self.reason;
        write!(f, "{reason} at offset {at}")
    }
}
