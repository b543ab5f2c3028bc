//! The bytes of messages in a file, captured or not.
#![tactic(auto)]

ghost use Rattle.std.specs.Prelude.{◌≡◌, ◌≤◌, ◌++◌, ◌⊎◌, ℕ, List, Some, length, take, true, false, None};
ghost use Rattle.std.specs.Io.KnownBytes.{Consumes, IsAtEnd};
ghost use Rattle.dbus_capture.specs.Beginnings.{first_scan};
ghost use Rattle.dbus_capture.specs.Captures.{file_of, input_of, left_of, opened, packets_of, scan_of, source_of};
ghost use Rattle.dbus_capture.specs.Steps.{ended, given, packet_given, run};
ghost use Rattle.dbus_device.specs.Packets.{Packets};
ghost use Rattle.dbus_page.specs.Parts.{AreParts, IsFaultTold, IsFull, number_in, time_in, time_of};
ghost use Rattle.dbus_page.specs.Failing.{MayFail};
ghost use Rattle.dbus_page.specs.declared.answers.TheConstants.{NO_ROOM, WHOLE};

use crate::answers::{NO_ROOM, WHOLE};
use crate::memory::Memory;
use dbus_capture::{Capture, CaptureFault};
use dbus_device::{Packet, Source};

/// Bytes in a row that are all of one packet, or of none.
#[repr(C)]
#[derive(Clone, Copy)]
pub struct PagePart {
    /// The offset of the first among all bytes that were unpacked.
    pub start: u64,
    /// The number of the packet among those that were not passed over, counted from 1; 0 if the
    /// bytes are of none.
    pub packet: u64,
    /// When the packet was captured, in nanoseconds since 1970 began in UTC, if that is known.
    pub time: u64,
    /// 0 if it is not known, else 1.
    pub has_time: u64,
}

/// What was unpacked.
#[repr(C)]
#[derive(Drop)]
pub struct Unpacked {
    /// The number of bytes.
    pub length: u64,
    /// The number of their parts.
    pub parts: u64,
    /// Of a fault of the file: its offset, in bytes from the start of the file.
    pub at: u64,
    /// 1 if a fault is told, else 0.
    pub has_fault: u64,
}

// How far the room and the parts are filled.
#[derive(Drop)]
struct Filled {
    // The number of bytes.
    length: usize,
    // The number of parts.
    parts: usize,
    // Whether the source has no bytes left.
    is_all: bool,
}

// The part that begins here and is of this packet.
fn part_of(start: usize, packet: Option<Packet>) -> PagePart
    ensures begins { result.start ≡ start }
    ensures numbered { result.packet ≡ number_in packet }
    ensures timed { time_of result ≡ time_in packet }
{
    let (number, time) = match packet {
        Some(packet) => (packet.number, packet.time),
        None => (0, None),
    };
    let (time, has_time) = match time {
        Some(time) => (time, 1),
        None => (0, 0),
    };
    PagePart {
        start: start as u64,
        packet: number,
        time,
        has_time,
    }
}

// Reads all that a capture gives to the start of the room, and notes each part that a read gives.
fn read_through<R: Source>(
    capture: &mut Capture<R>,
    room: &mut [u8],
    parts: &mut [PagePart],
) -> Filled
    ensures within { result.length ≤ length room.new }
    ensures read { Consumes (left_of R.left (input_of capture.old))
        (left_of R.left (input_of capture.new)) (take result.length room.new) }
    ensures all { result.is_all ≡ true → IsAtEnd (left_of R.left (input_of capture.new)) }
    ensures parts { (packets : Packets) →
        packets_of R.left (input_of capture.old) ≡ Some packets →
        AreParts packets 0 (take result.parts parts.new) result.length }
    ensures fault { result.is_all ≡ true → (bytes : List ℕ) →
        file_of R.left (input_of capture.old) ≡ Some bytes →
        (ended (run (opened (input_of capture.old) bytes) bytes)).fault ≡
        (scan_of (input_of capture.new)).fault }
    ensures full { result.is_all ≡ false → (bytes : List ℕ) →
        file_of R.left (input_of capture.old) ≡ Some bytes →
        IsFull room.new parts.new result.length result.parts ⊎
        MayFail (R.failures (source_of (input_of capture.old)))
        (R.failures (source_of (input_of capture.new))) bytes }
{
    let mut length = 0;
    for number in 0..parts.len() {
        match capture.read(&mut room[length..]) {
            Ok(count) => {
                if count == 0 {
                    return Filled {
                        length,
                        parts: number,
                        is_all: length < room.len(),
                    };
                }
                parts[number] = part_of(length, capture.packet());
                length += count;
            }
            Err(_) => {
                return Filled {
                    length,
                    parts: number,
                    is_all: false,
                };
            }
        }
    }
    Filled {
        length,
        parts: parts.len(),
        is_all: false,
    }
}

// What was unpacked, of a file with this fault or without one.
fn unpacked_of(filled: &Filled, fault: Option<CaptureFault>) -> Unpacked
    ensures length { result.length ≡ filled.now.length }
    ensures parts { result.parts ≡ filled.now.parts }
    ensures fault { IsFaultTold fault result }
{
    let (at, has_fault) = match fault {
        Some(fault) => (fault.at, 1),
        None => (0, 0),
    };
    Unpacked {
        length: filled.length as u64,
        parts: filled.parts as u64,
        at,
        has_fault,
    }
}

/// Writes the bytes of messages that a file has to the start of the room: those of the D-Bus
/// packets of a pcap or pcapng file, one after another, or all bytes of any other file. Writes to
/// `parts` where each part of a packet begins, and which packet it is and when it was captured. A
/// fault of the file ends its bytes.
///
/// [`WHOLE`] if these are all bytes; a fault is told then. [`NO_ROOM`] if the room or `parts` is
/// full, and no fault is told: both need room for one more than is written, and may change behind
/// that. It allocates nothing. "PCAP Capture File Format"; "PCAP Now Generic (pcapng) Capture File
/// Format".
#[unsafe(no_mangle)]
pub extern "C" fn dbus_page_unpack(
    file: &[u8],
    room: &mut [u8],
    parts: &mut [PagePart],
    unpacked: &mut Unpacked,
) -> u32
    ensures front { (rest : List ℕ) ×
        (given (first_scan false file.now) file.now ≡ take unpacked.new.length room.new ++ rest) }
    ensures whole { result ≡ WHOLE →
        given (first_scan false file.now) file.now ≡ take unpacked.new.length room.new }
    ensures parts { AreParts (packet_given (first_scan false file.now) file.now) 0
        (take unpacked.new.parts parts.new) unpacked.new.length }
    ensures answers { (result ≡ WHOLE) ⊎ (result ≡ NO_ROOM) }
    ensures full { result ≡ NO_ROOM →
        IsFull room.new parts.new unpacked.new.length unpacked.new.parts }
    ensures fault { result ≡ WHOLE →
        IsFaultTold (ended (run (first_scan false file.now) file.now)).fault unpacked.new }
    ensures unfaulted { result ≡ NO_ROOM → IsFaultTold None unpacked.new }
{
    let source = Memory {
        left: file,
        calls: 0,
    };
    let mut capture = Capture::new(source, false);
    let filled = read_through(&mut capture, room, parts);
    if filled.is_all {
        *unpacked = unpacked_of(&filled, capture.fault());
        WHOLE
    } else {
        *unpacked = unpacked_of(&filled, None);
        NO_ROOM
    }
}
