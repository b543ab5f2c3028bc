//! What the contracts come to, for whole files. Each function does nothing when it runs: its
//! contract is the law. `given` are the bytes that a capture gives of an input, and `run` is what
//! it keeps after it; both are as [`Source::read`] of a capture gives them in any pieces, by its
//! clause `part`.
//!
//! [`Source::read`]: dbus_device::Source::read
ghost use Rattle.std.specs.Prelude.{◌≡◌, ◌<◌, ◌+◌, ℕ, ◌++◌, List, [], ◌∷◌, length, Bool, true, false, Some, None, slice_get};
ghost use Rattle.dbus_capture.specs.Beginnings.{first_stage, first_scan, IsFirstOfStream};
ghost use Rattle.dbus_capture.specs.Steps.{run, given, packet_given, ended};
ghost use Rattle.dbus_capture.specs.Reading.{IsReadOf};
ghost use Rattle.dbus_capture.specs.PcapFiles.{PcapHeader, PcapPacket, FitsHeader, FitsPacket, AllFitPackets, packet_header_bytes, pcap_bytes, capture_of, captures};
ghost use Rattle.dbus_capture.specs.BlockFiles.{PacketForm, PacketBlock, head_interface, FitsBlock, FitsBody, block_body, FileSection, FitsSection, AllFitSections, sections_bytes, interfaces_all, last_section, sections_packets};
ghost use Rattle.dbus_capture.specs.CutPackets.{IsCaptured, AreCaptured, alone_all, whole_payload};
ghost use Rattle.dbus_capture.specs.Outcomes.{AreBytes, IsPcap, IsPcapng, IsOutcome};
ghost use Rattle.dbus_capture.specs.Packets.{Reports, FitsTime, pcap_packet_reported, block_front, pcapng_packet_reported};
ghost use Rattle.dbus_capture.specs.declared.interface.Interface.{Interface};
ghost use Rattle.dbus_capture.specs.declared.stage.Stage.TheVariants as stages;

/// A pcap file of link type 231 is read whole, if all of its packets are whole, or if those that
/// were cut are to be passed over: the capture gives the bytes of the others, counts these, and
/// there is no fault.
#[tactic(auto, using(crate::proofs::PcapReads::pcap_read))]
pub fn pcap_is_read()
    ensures { (passes_cut : Bool) (header : PcapHeader) (packets : List PcapPacket) →
        FitsHeader header → AllFitPackets packets →
        AreCaptured passes_cut true (captures packets) →
        IsReadOf passes_cut (pcap_bytes header packets) (captures packets) }
{}

/// Bytes that begin as a pcap file are such a file, and the capture gives the bytes of its packets
/// that are whole; or they are refused, at a place behind the last packet that is whole,
/// and the capture gives the bytes of those packets first.
pub fn pcap_outcome()
    ensures { (passes_cut : Bool) (bytes : List ℕ) →
        AreBytes bytes → first_stage bytes ≡ stages.FileHeader →
        IsOutcome (IsPcap passes_cut) bytes (given (first_scan passes_cut bytes) bytes)
        (ended (run (first_scan passes_cut bytes) bytes)).fault }
{}

/// A pcapng file of one section or more is read whole, if all of its packets of link type 231 are
/// whole, or if those that were cut are to be passed over: the capture gives the bytes of the others,
/// counts these, and there is no fault.
#[tactic(auto, using(crate::proofs::SectionReads::pcapng_read))]
pub fn pcapng_is_read()
    ensures { (passes_cut : Bool) (x : FileSection) (sections : List FileSection) →
        FitsSection x → AllFitSections sections →
        AreCaptured passes_cut true (sections_packets (x ∷ sections)) →
        IsReadOf passes_cut (sections_bytes (x ∷ sections)) (sections_packets (x ∷ sections)) }
{}

/// Bytes that begin as a pcapng file are such a file, and the capture gives the bytes of its packets
/// of link type 231 that are whole; or they are refused, at a place behind the last block
/// that is whole, and the capture gives the bytes of those packets first.
pub fn pcapng_outcome()
    ensures { (passes_cut : Bool) (bytes : List ℕ) →
        AreBytes bytes → first_stage bytes ≡ stages.Section →
        IsOutcome (IsPcapng passes_cut) bytes (given (first_scan passes_cut bytes) bytes)
        (ended (run (first_scan passes_cut bytes) bytes)).fault }
{}

/// While a capture gives the bytes of a packet of a pcap file, it reports its number, place, time
/// and length. Packets that were cut have no number.
pub fn pcap_packet_is_reported()
    ensures { (passes_cut : Bool) (header : PcapHeader) (packets : List PcapPacket)
        (packet : PcapPacket) (front back : List ℕ) →
        FitsHeader header → AllFitPackets packets →
        AreCaptured passes_cut true (captures packets) → FitsPacket packet →
        IsCaptured false (alone_all true (captures packets)) (capture_of packet) →
        packet.bytes ≡ front ++ back →
        let bytes = pcap_bytes header packets ++
        (packet_header_bytes header.order packet ++ front) in
        Reports (run (first_scan passes_cut bytes) bytes)
        (pcap_packet_reported header packets packet) }
{}

/// The same of a packet in a block that follows sections of a pcapng file. A simple packet block has
/// no time.
pub fn pcapng_packet_is_reported()
    ensures { (passes_cut : Bool) (x : FileSection) (sections : List FileSection) (i : Interface)
        (form : PacketForm) (packet rest front back : List ℕ) →
        let last = last_section x sections in let interfaces = interfaces_all [] last.blocks in
        let block = PacketBlock form (length packet) packet rest in
        let packets = sections_packets (x ∷ sections) in
        FitsSection x → AllFitSections sections → AreCaptured passes_cut true packets →
        FitsBlock interfaces block → FitsBody (block_body last.order block) →
        IsCaptured false (alone_all true packets)
        (record { original = length packet; bytes = packet }) →
        FitsTime form → slice_get interfaces (head_interface form) ≡ Some i → i.link_type ≡ 231 →
        packet ≡ front ++ back →
        let bytes = sections_bytes (x ∷ sections) ++
        (block_front last.order form packet rest ++ front) in
        Reports (run (first_scan passes_cut bytes) bytes)
        (pcapng_packet_reported (x ∷ sections) i form packet) }
{}

/// Each byte of a packet of a pcap file is of the packet of its number, place, time and length, as a
/// source says it of its bytes.
pub fn pcap_bytes_have_packets()
    ensures { (passes_cut : Bool) (header : PcapHeader) (packets : List PcapPacket)
        (packet : PcapPacket) (more : List ℕ) (i : ℕ) →
        FitsHeader header → AllFitPackets packets →
        AreCaptured passes_cut true (captures packets) → FitsPacket packet →
        IsCaptured false (alone_all true (captures packets)) (capture_of packet) →
        i < length packet.bytes →
        let bytes = (pcap_bytes header packets ++ packet_header_bytes header.order packet) ++
        (packet.bytes ++ more) in
        packet_given (first_scan passes_cut bytes) bytes
        (length (whole_payload true (captures packets)) + i) ≡
        Some (pcap_packet_reported header packets packet) }
{}

/// The same of each byte of such a packet of a pcapng file.
pub fn pcapng_bytes_have_packets()
    ensures { (passes_cut : Bool) (x : FileSection) (sections : List FileSection) (i : Interface)
        (form : PacketForm) (packet rest more : List ℕ) (n : ℕ) →
        let last = last_section x sections in let interfaces = interfaces_all [] last.blocks in
        let block = PacketBlock form (length packet) packet rest in
        let packets = sections_packets (x ∷ sections) in
        FitsSection x → AllFitSections sections → AreCaptured passes_cut true packets →
        FitsBlock interfaces block → FitsBody (block_body last.order block) →
        IsCaptured false (alone_all true packets)
        (record { original = length packet; bytes = packet }) →
        FitsTime form → slice_get interfaces (head_interface form) ≡ Some i → i.link_type ≡ 231 →
        n < length packet →
        let bytes = (sections_bytes (x ∷ sections) ++ block_front last.order form packet rest) ++
        (packet ++ more) in
        packet_given (first_scan passes_cut bytes) bytes
        (length (whole_payload true packets) + n) ≡
        Some (pcapng_packet_reported (x ∷ sections) i form packet) }
{}

/// A capture gives what begins as a message or a handshake as it is.
#[tactic(auto, using(crate::proofs::FirstLaws::stream_first))]
pub fn streams_are_no_files()
    ensures { (first : ℕ) (rest : List ℕ) →
        IsFirstOfStream first → first_stage (first ∷ rest) ≡ stages.Raw }
{}

/// No byte of an input that is no file is of a packet.
pub fn streams_have_no_packets()
    ensures { (passes_cut : Bool) (bytes : List ℕ) (i : ℕ) →
        first_stage bytes ≡ stages.Raw → packet_given (first_scan passes_cut bytes) bytes i ≡ None }
{}
