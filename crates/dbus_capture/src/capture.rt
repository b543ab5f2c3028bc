//! A capture as a source of messages' bytes.
ghost use Rattle.std.specs.Prelude.{◌≡◌, ◌≤◌, [], None, false, length, IfOk};
ghost use Rattle.dbus_device.specs.Device.{ReadCounts, one_more};
ghost use Rattle.dbus_capture.specs.Packets.{last_packet};
ghost use Rattle.dbus_capture.specs.Captures.{input_of, source_of, scan_of, owed_of, chosen_of, kept_of, gave_up_of, calls_of, last_packet_of};

use crate::fault::CaptureFault;
use crate::input::Input;
use dbus_device::{DeviceFault, Packet, Source};

/// A source of the bytes of the D-Bus packets of a file, pcap or pcapng, which it reads from the
/// source below. If the first four bytes are those of no such file, or the input has fewer, it
/// gives all bytes as they are: messages, or a handshake and messages.
///
/// It allocates nothing, and has a size of about 66,500 bytes. If the input is no such file, only
/// what is read until four bytes are there, at most 65,536 bytes, goes through its own buffer.
///
/// ```rust
/// use dbus_capture::Capture;
/// use dbus_stream::{FromRead, MessageReader};
///
/// let mut reader = MessageReader::new(alloc, Capture::new(FromRead::new(rt.stdin()), false));
/// for _ in 0..u64::MAX {
///     let Some((_, message)) = reader.next()? else {
///         break;
///     };
///     println!(rt; "serial {}", message.parts().serial)?;
/// }
/// if let Some(fault) = reader.into_source().fault() {
///     println!(rt; "refused: {fault}")?;
/// }
/// ```
#[derive(Drop)]
pub struct Capture<R> {
    input: Input<R>,
    // The packet of the bytes that were handed on last.
    packet: Option<Packet>,
    calls: u64,
}

impl<R: Source> Capture<R> {
    ghost use Rattle.dbus_capture.specs.Scans.{fresh};
    ghost use Rattle.dbus_capture.specs.declared.stage.Stage.TheVariants.{Raw};

    /// The capture that this source gives. It has read nothing yet.
    ///
    /// A packet of D-Bus of which not all bytes were captured is a fault, or is passed over if
    /// `passes_cut`; so is one that has fewer bytes than its message states, if each packet before
    /// it was one message. Packets of other link types in a pcapng file are passed over.
    pub fn new(source: R, passes_cut: bool) -> Self
        ensures source { source_of (input_of result) ≡ source }
        ensures kept { kept_of (input_of result) ≡ [] }
        ensures owed { owed_of (input_of result) ≡ [] }
        ensures scan { scan_of (input_of result) ≡ fresh passes_cut Raw }
        ensures chosen { chosen_of (input_of result) ≡ false }
        ensures packet { last_packet_of result ≡ None }
        ensures gave_up { gave_up_of (input_of result) ≡ 0 }
        ensures calls { calls_of result ≡ 0 }
    {
        Capture {
            input: Input::new(source, passes_cut),
            packet: None,
            calls: 0,
        }
    }

    /// The fault of the file, if the reading came to it. Nothing is read after it.
    pub fn fault(&self) -> Option<CaptureFault>
        ensures { result ≡ (scan_of (input_of self.now)).fault }
    {
        self.input.scan.fault
    }

    /// The number of packets that were passed over, modulo 2^64: those of other link types, and
    /// those that were cut.
    pub fn passed_over(&self) -> u64
        ensures { result ≡ (scan_of (input_of self.now)).passed_over }
    {
        self.input.scan.passed_over
    }

    /// The number of packets of D-Bus that were passed over since they were cut, modulo 2^64. They are among those of [`Self::passed_over`].
    pub fn cut_packets(&self) -> u64
        ensures { result ≡ (scan_of (input_of self.now)).cut }
    {
        self.input.scan.cut
    }
}

impl<R: Source> Source for Capture<R> {
    ghost use Rattle.std.specs.Io.KnownBytes.{ReadConsumes};
    ghost use Rattle.dbus_device.specs.Packets.{ReadsOfPacket, LeavesPacket};
    ghost use Rattle.dbus_capture.specs.Captures.{left_of, failures_of, packets_of, ReadsInput, Stops};

    ghost left = { λ s. left_of R.left (input_of s) };

    ghost failures = { λ s. failures_of R.failures (input_of s) };

    ghost calls = { λ s. calls_of s };

    ghost reference = { λ s. None };

    ghost packets = { λ s. packets_of R.left (input_of s) };

    ghost packet = { λ s. last_packet_of s };

    /// The packet of the bytes that were read last, if they were of one: of a stream with no file
    /// around it there is none. A read that gave no byte left it as it was.
    fn packet(&self) -> Option<Packet>
        ensures { result ≡ last_packet_of self.now }
    {
        self.packet
    }

    /// Fills a prefix of the buffer with bytes of one packet, and returns their number.
    ///
    /// 0 bytes are the end of the input, a fault of the file, or the buffer has no room. The source
    /// below is called only until it gave four bytes, and while the bytes that it gave hold none of
    /// a packet, so each packet of a live file is given as it comes, but for its first 16 bytes,
    /// which are given together. It is not called after a fault, nor if there is no room.
    ///
    /// `DeviceFault`: the source below failed. No byte is lost, none of a packet is kept, and the
    /// call may be made again. It also comes if at least 2^64 - 1 bytes of the file in a row have
    /// none of a packet.
    fn read(&mut self, buffer: &mut [u8]) -> Result<usize, DeviceFault>
        ensures bound { IfOk result (λ n. n ≤ length buffer.new) }
        ensures bytes { ReadConsumes (left_of R.left (input_of self.old))
            (left_of R.left (input_of self.new)) result buffer.new }
        ensures failed { ReadCounts (failures_of R.failures (input_of self.old))
            (failures_of R.failures (input_of self.new)) result }
        ensures called { calls_of self.new ≡ one_more (calls_of self.old) }
        ensures of_packet { ReadsOfPacket (packets_of R.left (input_of self.old))
            (packets_of R.left (input_of self.new)) (last_packet_of self.new) result }
        ensures leaves_packet { LeavesPacket (last_packet_of self.old) (last_packet_of self.new)
            result }
        // What the file has to do with it, and which packet the bytes are of.
        ensures input { ReadsInput R.left R.calls R.failures (input_of self.old)
            (input_of self.new) result buffer.new }
        ensures stops { Stops (input_of self.old) (input_of self.new) result (length buffer.new) }
        ensures packet { last_packet_of self.new ≡ last_packet result
            (scan_of (input_of self.new)).packet (last_packet_of self.old) }
    {
        self.calls = self.calls.wrapping_add(1);
        let read = self.input.read(buffer);
        self.packet = last_packet(read, self.input.scan.packet, self.packet);
        read
    }
}

// The packet of the bytes that were read last, after a read: the one that began last, if the read
// gave any, and the one before it otherwise.
fn last_packet(
    read: Result<usize, DeviceFault>,
    began: Option<Packet>,
    before: Option<Packet>,
) -> Option<Packet>
    ensures { result ≡ last_packet read began before }
{
    match read {
        Ok(count) if count > 0 => began,
        _ => before,
    }
}
