//! The input of a capture: the source below, and what was taken of the bytes that it gave.
ghost use Rattle.std.specs.Prelude.{◌≡◌, ◌≢◌, ◌≤◌, [], false, length};
ghost use Rattle.dbus_device.specs.Device.{ReadCounts};

use crate::head::Head;
use crate::owed::Owed;
use crate::scan::Scan;
use crate::stage::{Stage, first_stage};
use dbus_device::{DeviceFault, Source};

// How many bytes of the file one call of the source below reads at most.
const ROOM: usize = 65_536;

/// The input of a capture.
#[derive(Drop)]
pub struct Input<R> {
    source: R,
    pub(crate) scan: Scan,
    // Whether it is known what the input is. Before that nothing is taken of it.
    chosen: bool,
    // The first bytes of a packet that were taken and not handed on yet.
    owed: Owed,
    // The bytes of the file that were read and not taken yet.
    bytes: [u8; ROOM],
    start: usize,
    end: usize,
    // How often a read found no byte of a packet in 2^64 - 1 turns or more, modulo 2^64.
    gave_up: u64,
    ghost in_order: { start ≤ end },
    ghost in_room: { end ≤ 65536 },
    ghost untaken: { chosen ≡ false → start ≡ 0 },
    ghost unowed: { chosen ≡ false → owed ≡ [] },
}

impl<R: Source> Input<R> {
    ghost use Rattle.std.specs.Prelude.{◌<◌, ◌⊎◌, ◌++◌, IfOk, IfErr, IsTrue, take, true};
    ghost use Rattle.dbus_capture.specs.Stages.{is_raw};
    ghost use Rattle.std.specs.Io.KnownBytes.{IsAtEnd};
    ghost use Rattle.dbus_capture.specs.Scans.{fresh};
    ghost use Rattle.dbus_capture.specs.Captures.{source_of, scan_of, owed_of, kept_of, gave_up_of, chosen_of, Fetches, Begins, HasBytes, Fills, HandsOn, ReadsPart, ReadsInput, Asks, Stops};

    // The input that this source gives. Nothing was read of it yet.
    pub(crate) fn new(source: R, passes_cut: bool) -> Self
        ensures source { source_of result ≡ source }
        ensures kept { kept_of result ≡ [] }
        ensures owed { owed_of result ≡ [] }
        ensures scan { scan_of result ≡ fresh passes_cut Stage.Raw }
        ensures chosen { chosen_of result ≡ false }
        ensures gave_up { gave_up_of result ≡ 0 }
    {
        Input {
            source,
            scan: Scan::new(passes_cut, Stage::Raw),
            chosen: false,
            owed: Owed::new(),
            bytes: [0; ROOM],
            start: 0,
            end: 0,
            gave_up: 0,
        }
    }

    // Reads until four bytes are there, or the input ends.
    fn fetch(&mut self) -> Result<(), DeviceFault>
        requires { chosen_of self.old ≡ false }
        ensures fetched { Fetches R.left R.calls self.old self.new }
        ensures enough { IfOk result (λ u. (4 ≤ length (kept_of self.new)) ⊎
            IsAtEnd (R.left (source_of self.new))) }
        ensures failed { ReadCounts (R.failures (source_of self.old))
            (R.failures (source_of self.new)) result }
        ensures scan { scan_of self.new ≡ scan_of self.old }
        ensures chosen { chosen_of self.new ≡ false }
    {
        for number in 0..4u64 {
            let kept = &self.bytes[self.start..self.end];
            if kept.len() >= 4 {
                return Ok(());
            }
            let count = self.source.read(&mut self.bytes[self.end..])?;
            if count == 0 {
                return Ok(());
            }
            self.end += count;
        }
        Ok(())
    }

    // Finds out what the input is, if that is not known.
    fn choose(&mut self) -> Result<(), DeviceFault>
        requires { chosen_of self.old ≡ false }
        ensures begins { IfOk result (λ u. Begins R.left R.calls R.failures self.old self.new) }
        ensures fetched { Fetches R.left R.calls self.old self.new }
        ensures failed { ReadCounts (R.failures (source_of self.old))
            (R.failures (source_of self.new)) result }
        ensures scan { IfErr result (λ e. scan_of self.new ≡ scan_of self.old) }
        ensures chosen { IfErr result (λ e. chosen_of self.new ≡ false) }
    {
        self.fetch()?;
        let stage = first_stage(&self.bytes[self.start..self.end]);
        self.scan.head = Head::new(stage);
        self.chosen = true;
        Ok(())
    }

    // Reads once if no bytes are kept. It is false at the end of the input.
    fn fill(&mut self) -> Result<bool, DeviceFault>
        ensures has { HasBytes R.left self.new result }
        ensures fills { Fills R.left R.calls self.old self.new }
        ensures scan { scan_of self.new ≡ scan_of self.old }
        ensures failed { ReadCounts (R.failures (source_of self.old))
            (R.failures (source_of self.new)) result }
        ensures gave_up { gave_up_of self.new ≡ gave_up_of self.old }
        ensures chosen { chosen_of self.new ≡ chosen_of self.old }
        ensures owed { owed_of self.new ≡ owed_of self.old }
    {
        if self.start < self.end {
            return Ok(true);
        }
        self.start = 0;
        self.end = 0;
        let count = self.source.read(&mut self.bytes)?;
        self.end = count;
        Ok(count > 0)
    }

    // Takes bytes that are kept, and hands on those of a packet.
    fn hand_on(&mut self, buffer: &mut [u8]) -> usize
        requires chosen { chosen_of self.old ≡ true }
        requires nothing { owed_of self.old ≡ [] }
        ensures bound { result ≤ length buffer.new }
        ensures moved { HandsOn self.old self.new (take result buffer.new) }
        ensures some { 0 < length (kept_of self.old) → 0 < length buffer.old →
            length (kept_of self.new) < length (kept_of self.old) }
        ensures owed { result ≡ 0 → 0 < length buffer.old → owed_of self.new ≡ [] }
        ensures source { source_of self.new ≡ source_of self.old }
        ensures gave_up { gave_up_of self.new ≡ gave_up_of self.old }
        ensures chosen { chosen_of self.new ≡ true }
    {
        let bytes: &[u8] = &self.bytes;
        let piece = &bytes[self.start..self.end];
        let (used, given) = self.scan.take(piece, buffer, &mut self.owed);
        self.start += used;
        if given > 0 {
            return given;
        }
        self.owed.give(buffer)
    }

    // Whether no bytes are kept of a stream with no file around it.
    #[tactic(auto, using(crate::proofs::CaptureSteps::no_part))]
    fn passes_on(&self) -> bool
        ensures kept { IsTrue result → kept_of self.now ≡ [] }
        ensures raw { IsTrue result → is_raw (scan_of self.now).head.stage ≡ true }
    {
        self.start == self.end && self.scan.head.stage().is_raw()
    }

    // Reads bytes of a packet, in as many turns as that takes.
    fn read_part(&mut self, buffer: &mut [u8]) -> Result<usize, DeviceFault>
        requires { chosen_of self.old ≡ true }
        ensures bound { IfOk result (λ n. n ≤ length buffer.new) }
        ensures part { ReadsPart R.left R.failures self.old self.new result buffer.new ×
            Asks R.left R.calls self.old self.new result }
        ensures stops { Stops self.old self.new result (length buffer.new) }
        ensures chosen { chosen_of self.new ≡ true }
    {
        if buffer.is_empty() {
            return Ok(0);
        }
        if self.owed.len() > 0 {
            return Ok(self.owed.give(buffer));
        }
        if self.scan.fault.is_some() {
            return Ok(0);
        }
        if self.passes_on() {
            return self.source.read(buffer);
        }
        'turns: for turn in 0..u64::MAX {
            if !self.fill()? {
                self.scan.end();
                return Ok(0);
            }
            let count = self.hand_on(buffer);
            if count > 0 || self.scan.fault.is_some() {
                return Ok(count);
            }
        }
        self.gave_up = self.gave_up.wrapping_add(1);
        Err(DeviceFault)
    }

    // The same, also if it is not known what the input is.
    pub(crate) fn read(&mut self, buffer: &mut [u8]) -> Result<usize, DeviceFault>
        ensures bound { IfOk result (λ n. n ≤ length buffer.new) }
        ensures input { ReadsInput R.left R.calls R.failures self.old self.new result buffer.new }
        ensures stops { Stops self.old self.new result (length buffer.new) }
    {
        if self.chosen {
            return self.read_part(buffer);
        }
        if self.scan.fault.is_some() {
            return Ok(0);
        }
        if buffer.is_empty() {
            return Ok(0);
        }
        self.choose()?;
        self.read_part(buffer)
    }
}
