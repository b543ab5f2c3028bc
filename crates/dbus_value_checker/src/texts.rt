//! Texts, whose bytes may come in pieces: values, the signatures of variants, and the texts of a
//! header's fields.
#![tactic(auto)]

ghost use Rattle.std.specs.Prelude.{◌≡◌, ◌≢◌, ◌<◌, length, slice_index, IfOk, IfErr, ◌⊎◌};
ghost use Rattle.dbus_texts.specs.Types.{TextCode, text_code};
ghost use Rattle.dbus_value_model.specs.WantedTexts.{Of};
ghost use Rattle.dbus_value_model.specs.WantedTexts as wanted;
ghost use Rattle.dbus_value_model.specs.Items.{text_reason};

use crate::fronts::{front, length_front, nul_front};
use crate::holding::{is_held, keep};
use crate::values::{Doing, ValueChecker};
use dbus_types::{TextKind, TextScan};
use dbus_value_model::{Reason, Stop, refuse};

/// The kind of the texts of the type that has this code.
pub fn kind_of_code(code: u8) -> TextKind
    ensures { (k : TextCode) → text_code k ≡ code → Of result ≡ wanted.kind_of k }
{
    match code {
        b's' => TextKind::Text,
        b'o' => TextKind::Path,
        _ => TextKind::Signature,
    }
}

/// What is wrong with a text that is not of this kind.
pub fn reason_of_kind(kind: TextKind) -> Reason
    ensures { text_reason (Of kind) ≡ result }
{
    match kind {
        TextKind::Text => Reason::Text,
        TextKind::Path => Reason::Path,
        TextKind::Interface => Reason::Interface,
        TextKind::Member => Reason::Member,
        TextKind::ErrorName => Reason::ErrorName,
        TextKind::BusName => Reason::BusName,
        TextKind::Signature | TextKind::Single => Reason::Signature,
    }
}

impl ValueChecker {
    ghost use Rattle.dbus_value_checker.specs.Denotations.{Answer, Ready, Texts, Nuls};
    ghost use Rattle.dbus_value_checker.specs.Moves.{Moves, Opens};
    ghost use Rattle.dbus_value_model.specs.declared.stop.Stop.TheVariants.{Partial};

    /// The number of bytes of a text that are still wanted. If none are, the text is validated
    /// whole.
    pub(crate) fn text_on(&mut self, kind: TextKind, left: usize) -> Result<(), Stop>
        requires valid { (answer : Answer) × Texts self.old kind left answer }
        ensures opens { (answer : Answer) → Texts self.old kind left answer →
            Opens result self.new answer }
        ensures decided { IfErr result (λ e. e ≢ Partial) }
    {
        if left > 0 {
            self.doing = Doing::Text(kind, left);
            return Ok(());
        }
        if self.scan.end() {
            if is_held(kind) {
                self.hold();
                return Ok(());
            }
            self.doing = Doing::Nul;
            return Ok(());
        }
        refuse(self.offset, reason_of_kind(kind))
    }

    /// A text, whose padding of n bytes is there: its length.
    pub(crate) fn string(
        &mut self,
        pos: usize,
        stop: usize,
        n: usize,
        code: u8,
        bytes: &[u8],
    ) -> Result<usize, Stop>
        requires valid { (answer : Answer) × Ready self.old pos stop n answer }
        requires code { slice_index self.old.text.items pos ≡ code }
        requires text { (code ≡ 103) ⊎ ((code ≡ 111) ⊎ (code ≡ 115)) }
        ensures moves { (answer : Answer) → Ready self.old pos stop n answer →
            Moves self.old bytes.now result self.new answer }
        ensures some { IfOk result (λ n. 0 < n) }
        ensures short { IfErr result (λ e. e ≡ Partial → length bytes.now < 4) }
    {
        let at = self.offset + n;
        match length_front(code, bytes, at, self.inner.end, self.order) {
            Ok((size, width)) => {
                self.offset = at + width;
                let kind = kind_of_code(code);
                self.scan = TextScan::new(kind);
                match self.text_on(kind, size) {
                    Ok(()) => Ok(width),
                    Err(stop) => Err(stop),
                }
            }
            Err(stop) => Err(stop),
        }
    }

    /// More bytes of a text.
    pub(crate) fn text(&mut self, kind: TextKind, left: usize, bytes: &[u8]) -> Result<usize, Stop>
        requires valid { (answer : Answer) × Texts self.old kind left answer }
        requires more { 0 < left }
        ensures moves { (answer : Answer) → Texts self.old kind left answer →
            Moves self.old bytes.now result self.new answer }
        ensures some { IfOk result (λ n. 0 < n) }
        ensures short { IfErr result (λ e. e ≡ Partial → length bytes.now < 1) }
    {
        if bytes.is_empty() {
            return Err(Stop::Partial);
        }
        let given = front(bytes, left);
        let taken = self.scan.take(given);
        if taken < given.len() {
            return refuse(self.offset + taken, reason_of_kind(kind));
        }
        self.offset += taken;
        keep(&mut self.held, kind, given);
        match self.text_on(kind, left - taken) {
            Ok(()) => Ok(taken),
            Err(stop) => Err(stop),
        }
    }

    /// The zero after a text.
    pub(crate) fn nul(&mut self, bytes: &[u8]) -> Result<usize, Stop>
        requires valid { (answer : Answer) × Nuls self.old answer }
        ensures moves { (answer : Answer) → Nuls self.old answer →
            Moves self.old bytes.now result self.new answer }
        ensures some { IfOk result (λ n. 0 < n) }
        ensures short { IfErr result (λ e. e ≡ Partial → length bytes.now < 1) }
    {
        match nul_front(bytes, self.offset) {
            Ok(()) => {
                self.offset += 1;
                self.next();
                Ok(1)
            }
            Err(stop) => Err(stop),
        }
    }
}
