//! The stages of a message under way whose values may have any length: the value of a field, the
//! body's signature, and the body.
#![tactic(auto)]

ghost use Rattle.std.specs.Prelude.{◌≡◌, ◌+◌, ◌<◌, ◌≤◌, ◌++◌, length, drop, IfOk, IfErr, ◌⊎◌};
ghost use Rattle.dbus_value_model.specs.declared.stop.Stop.TheVariants.{Partial};

use crate::progress::{Progress, Stage};
use arrayvec::ArrayVec;
use dbus_value_checker::front;
use dbus_value_model::{Reason, Stop, refuse};

/// Notes more bytes of a signature.
fn note(signature: &mut ArrayVec<u8, 256>, more: &[u8])
    requires room { length signature.old.items + length more.now ≤ 256 }
    ensures { signature.new.items ≡ signature.old.items ++ more.now }
{
    match signature.try_extend_from_slice(more) {
        Ok(()) => {}
        // There is room for them.
        Err(_) => {}
    }
}

impl Progress {
    ghost use Rattle.dbus_check.specs.declared.progress.Stage.TheVariants.{Value, Types, Body};
    ghost use Rattle.dbus_check.specs.Progress.{To, WantsMore, WantsTypes, WantsBody, Steps, rank};

    /// More of a field's value, of the bytes after the first `start`. After it the next field is
    /// wanted.
    pub(crate) fn more(&mut self, bytes: &[u8], start: usize) -> Result<usize, Stop>
        requires valid { (to : To) × WantsMore self.old to }
        requires stage { self.old.stage ≡ Value }
        requires within { start ≤ length bytes.now }
        ensures steps { (to : To) → WantsMore self.old to →
            Steps (drop start bytes.now) result self.new to }
        ensures further { IfOk result (λ n. (0 < n) ⊎ (rank self.new.stage < rank Value)) }
        ensures short { IfErr result (λ e. e ≡ Partial → length (drop start bytes.now) < 20) }
    {
        match self.values.run_after(bytes, start) {
            Ok(n) => {
                if !self.values.is_live() {
                    self.offset = self.values.offset();
                    self.stage = Stage::Fields;
                    return Ok(n);
                }
                if n == 0 {
                    return Err(Stop::Partial);
                }
                Ok(n)
            }
            Err(fault) => Err(Stop::Refused(fault)),
        }
    }

    /// More of the body's signature, which is noted. After it the next field is wanted.
    pub(crate) fn more_types(&mut self, bytes: &[u8]) -> Result<usize, Stop>
        requires valid { (to : To) × WantsTypes self.old to }
        requires stage { self.old.stage ≡ Types }
        ensures steps { (to : To) → WantsTypes self.old to → Steps bytes.now result self.new to }
        ensures further { IfOk result (λ n. (0 < n) ⊎ (rank self.new.stage < rank Types)) }
        ensures short { IfErr result (λ e. e ≡ Partial → length bytes.now < 20) }
    {
        match self.values.run(bytes) {
            Ok(n) => {
                note(&mut self.signature, front(bytes, n));
                if !self.values.is_live() {
                    // The zero after it.
                    self.signature.pop();
                    self.offset = self.values.offset();
                    self.stage = Stage::Fields;
                    return Ok(n);
                }
                if n == 0 {
                    return Err(Stop::Partial);
                }
                Ok(n)
            }
            Err(fault) => Err(Stop::Refused(fault)),
        }
    }

    /// More of the body: `Trailing` if its values end before it does.
    pub(crate) fn body(&mut self, bytes: &[u8]) -> Result<usize, Stop>
        requires valid { (to : To) × WantsBody self.old to }
        requires stage { self.old.stage ≡ Body }
        ensures steps { (to : To) → WantsBody self.old to → Steps bytes.now result self.new to }
        ensures further { IfOk result (λ n. (0 < n) ⊎ (rank self.new.stage < rank Body)) }
        ensures short { IfErr result (λ e. e ≡ Partial → length bytes.now < 20) }
    {
        match self.values.run(bytes) {
            Ok(n) => {
                if self.values.is_live() {
                    if n == 0 {
                        return Err(Stop::Partial);
                    }
                    return Ok(n);
                }
                let offset = self.values.offset();
                if offset < self.end {
                    return refuse(offset, Reason::Trailing);
                }
                self.stage = Stage::Done;
                Ok(n)
            }
            Err(fault) => Err(Stop::Refused(fault)),
        }
    }
}
