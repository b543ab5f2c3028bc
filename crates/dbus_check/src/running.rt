//! A message under way, read as far as the bytes go.
#![tactic(auto)]

ghost use Rattle.std.specs.Prelude.{◌≡◌, ◌+◌, ◌<◌, ◌≤◌, length, drop, true, false, Ok, IfOk, IfErr, ◌⊎◌, ◌↔◌, IsTrue};
ghost use Rattle.dbus_value_model.specs.declared.stop.Stop.TheVariants.{Partial};

use crate::progress::{Progress, Stage};
use dbus_value_checker::rest_after;
use dbus_value_model::{Fault, Stop};

impl Progress {
    ghost use Rattle.dbus_check.specs.Progress.{To, Denotes, Steps, Runs, IsLive, rank};

    /// Whether something is wanted still.
    pub(crate) fn is_live(&self) -> bool
        ensures { IsTrue result ↔ IsLive self.now.stage }
    {
        !matches!(self.stage, Stage::Done)
    }

    /// What is wanted next, if all of it is there.
    fn step(&mut self, bytes: &[u8]) -> Result<usize, Stop>
        requires valid { (to : To) × Denotes self.old to }
        requires live { IsLive self.old.stage }
        ensures steps { (to : To) → Denotes self.old to → Steps bytes.now result self.new to }
        ensures further { IfOk result (λ n. (0 < n) ⊎ (rank self.new.stage < rank self.old.stage)) }
        ensures short { IfErr result (λ e. e ≡ Partial → length bytes.now < 20) }
    {
        match self.stage {
            Stage::Header => self.header(bytes),
            Stage::Fields => {
                if self.offset < self.end {
                    return self.field(bytes);
                }
                self.missing()?;
                Ok(0)
            }
            Stage::Value => self.more(bytes, 0),
            Stage::Types => self.more_types(bytes),
            Stage::Padding => self.padding(bytes),
            Stage::Body => self.body(bytes),
            Stage::Done => Ok(0),
        }
    }

    /// Does the same with the bytes after the first n.
    fn step_after(&mut self, bytes: &[u8], n: usize) -> Result<usize, Stop>
        requires valid { (to : To) × Denotes self.old to }
        requires live { IsLive self.old.stage }
        requires within { n ≤ length bytes.now }
        ensures steps { (to : To) → Denotes self.old to →
            Steps (drop n bytes.now) result self.new to }
        ensures further { IfOk result (λ n. (0 < n) ⊎ (rank self.new.stage < rank self.old.stage)) }
        ensures short { IfErr result (λ e. e ≡ Partial → length (drop n bytes.now) < 20) }
    {
        match self.stage {
            Stage::Value => self.more(bytes, n),
            _ => self.step(rest_after(bytes, n)),
        }
    }

    /// Takes all of the bytes at once if they are an array's numbers, of which more are wanted
    /// after them: whether they are.
    pub(crate) fn skip(&mut self, bytes: &[u8]) -> bool
        requires valid { (to : To) × Denotes self.old to }
        ensures runs { result ≡ true → (to : To) → Denotes self.old to →
            Runs bytes.now (Ok (length bytes.now)) self.new to }
        ensures live { result ≡ true → IsLive self.new.stage }
        ensures same { result ≡ false → self.new ≡ self.old }
    {
        match self.stage {
            Stage::Value => self.values.skip(bytes),
            Stage::Body => self.values.skip(bytes),
            _ => false,
        }
    }

    /// Takes what is wanted as far as it is there whole: how many bytes. If something is still
    /// wanted, what is left of the bytes, fewer than 20, is the front of an item: they are to be
    /// handed again, with more after them.
    ///
    /// A fault comes as soon as the bytes show it, whatever bytes follow; then the message is to
    /// begin again.
    pub(crate) fn run(&mut self, bytes: &[u8]) -> Result<usize, Fault>
        requires valid { (to : To) × Denotes self.old to }
        ensures runs { (to : To) → Denotes self.old to → Runs bytes.now result self.new to }
        ensures short { IfOk result (λ n. IsLive self.new.stage → length bytes.now < n + 20) }
    {
        let mut n = 0;
        while self.is_live() {
            match self.step_after(bytes, n) {
                Ok(more) => n += more,
                Err(Stop::Partial) => return Ok(n),
                Err(Stop::Refused(fault)) => return Err(fault),
            }
        }
        Ok(n)
    }
}
