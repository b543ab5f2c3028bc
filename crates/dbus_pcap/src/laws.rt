//! What is written is read. Each function does nothing when it runs: its contract is the law.
ghost use Rattle.std.specs.Prelude.{◌≡◌, ◌<◌, ◌+◌, ℕ, ◌++◌, List, Bool, length, Some};
ghost use Rattle.dbus_capture.specs.PcapFiles.{packet_header_bytes};
ghost use Rattle.dbus_capture.specs.Reading.{IsRead};
ghost use Rattle.dbus_capture.specs.Beginnings.{first_scan};
ghost use Rattle.dbus_capture.specs.Scans.{place};
ghost use Rattle.dbus_capture.specs.Steps.{packet_given};
ghost use Rattle.dbus_pcap.specs.Written.{AllFit, CapturedMessage, FitsMessage, file_of, messages_bytes, packet_of, written_header, written_time};

/// The file of messages, each as long as it states, is read whole: a capture gives the messages, one after the other, and there
/// is no fault.
pub fn written_is_read()
    ensures { (passes_cut : Bool) (messages : List CapturedMessage) →
        AllFit messages → IsRead passes_cut (file_of messages) (messages_bytes messages) }
{}

/// Each byte of a message is read as one of a packet of its number and length, and of the time that
/// was written.
pub fn written_times_are_read()
    ensures { (passes_cut : Bool) (before : List CapturedMessage) (message : CapturedMessage)
        (more : List ℕ) (i : ℕ) →
        AllFit before → FitsMessage message → i < length message.bytes →
        let bytes = (file_of before ++ packet_header_bytes written_header.order (packet_of message)) ++
        (message.bytes ++ more) in
        packet_given (first_scan passes_cut bytes) bytes (length (messages_bytes before) + i) ≡
        Some (record {
          number = place (length before + 1);
          at = place (length (file_of before));
          time = Some (written_time message.time);
          length = length message.bytes;
        }) }
{}
