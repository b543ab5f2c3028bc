//! The fields of a message under way: what is read of them in one go.
#![tactic(auto)]

ghost use Rattle.std.specs.Prelude.{◌≡◌, ◌<◌, ◌≤◌, length, IfOk, IfErr};
ghost use Rattle.dbus_texts.specs.Types.{OBJECT_PATH, SIGNATURE, TypeTree, TextType, IsSingleType, sig};
ghost use Rattle.dbus_value_model.specs.WantedTexts.{Of};
ghost use Rattle.dbus_value_model.specs.declared.stop.Stop.TheVariants.{Partial};
ghost use Rattle.dbus_message_model.specs.Messages.{Name, OfType, want};

use crate::field_fronts::{code_front, name_length_front, only_front};
use crate::field_values::uint32_field;
use crate::progress::{Progress, Stage};
use dbus_header::FIELD_DEPTH;
use dbus_message_model::field_table::{Wanted, want};
use dbus_types::TextKind;
use dbus_value_checker::{ended_front, reason_of_kind, rest_after, short_length_front};
use dbus_value_model::Stop;

impl Progress {
    ghost use Rattle.dbus_check.specs.declared.progress.Stage.TheVariants.{Fields};
    ghost use Rattle.dbus_check.specs.Progress.{To, Denotes, WantsFields, WantsValue, WantsHeld, Coded, Moves};

    /// The code of the next field, with its padding: how many bytes these have.
    pub(crate) fn code(&self, bytes: &[u8]) -> Result<(u8, usize), Stop>
        requires valid { (to : To) × WantsFields self.now to }
        requires more { self.now.offset < self.now.end }
        ensures coded { (to : To) → WantsFields self.now to → Coded self.now bytes.now result to }
        ensures some { IfOk result (λ x. (0 < x.1) × (x.1 ≤ length bytes.now) ×
            (3 ≤ self.now.limits.depth)) }
        ensures few { IfOk result (λ x. x.1 ≤ 8) }
        ensures short { IfErr result (λ e. e ≡ Partial → length bytes.now < 8) }
    {
        code_front(bytes, self.offset, self.end, self.limits, &self.seen)
    }

    /// Begins the field's value, of the type that these bytes spell, n bytes on. `depth_left`
    /// containers may be open at once in it.
    pub(crate) fn hold(&mut self, code: u8, n: usize, types: &[u8], depth_left: u8)
        requires valid { (to : To) × (t : TypeTree) ×
            (WantsHeld self.old code n depth_left t to × (types.now ≡ sig t) × IsSingleType t) }
        requires few { depth_left ≤ 64 }
        ensures { (to : To) (t : TypeTree) → WantsHeld self.old code n depth_left t to →
            types.now ≡ sig t → IsSingleType t → Denotes self.new to }
    {
        self.seen.note(code);
        self.offset += n;
        self.values.begin(
            self.limits.bounds(),
            self.order,
            self.offset,
            self.end,
            types,
            depth_left,
        );
        self.stage = Stage::Value;
    }

    /// The signature of an OBJECT_PATH, n bytes further: the text is wanted next.
    pub(crate) fn path(&mut self, code: u8, n: usize, bytes: &[u8]) -> Result<usize, Stop>
        requires valid { (to : To) × WantsValue self.old code n to }
        requires wanted { OfType (TextType OBJECT_PATH) ≡ want code }
        requires deep { 3 ≤ self.old.limits.depth }
        ensures moves { (to : To) → WantsValue self.old code n to →
            Moves self.old bytes.now result self.new to }
        ensures few { IfOk result (λ m. m < 4294967296) }
        ensures short { IfErr result (λ e. e ≡ Partial → length bytes.now < 11) }
    {
        only_front(b'o', bytes, self.offset + n, self.end)?;
        self.hold(code, n + 3, b"o", self.limits.depth - FIELD_DEPTH);
        Ok(3)
    }

    /// A name of a kind, n bytes further: all of it, or what comes before its text, which is wanted
    /// next.
    pub(crate) fn name(
        &mut self,
        kind: TextKind,
        code: u8,
        n: usize,
        bytes: &[u8],
    ) -> Result<usize, Stop>
        requires valid { (to : To) × WantsValue self.old code n to }
        requires wanted { Name (Of kind) ≡ want code }
        requires stage { self.old.stage ≡ Fields }
        ensures moves { (to : To) → WantsValue self.old code n to →
            Moves self.old bytes.now result self.new to }
        ensures few { IfOk result (λ m. m < 4294967296) }
        ensures short { IfErr result (λ e. e ≡ Partial → length bytes.now < 11) }
    {
        let at = self.offset + n;
        only_front(b's', bytes, at, self.end)?;
        let rest = rest_after(bytes, 3);
        let (size, taken) = name_length_front(rest, at + 3, self.end, self.order)?;
        self.seen.note(code);
        self.offset = at + (3 + taken);
        let text = rest_after(rest, taken);
        // Most are there whole.
        if let Ok(()) = ended_front(kind, size, text, self.offset, reason_of_kind(kind)) {
            self.offset += size + 1;
            return Ok(3 + taken + (size + 1));
        }
        self.values.begin_text(kind, self.offset, size, self.end)?;
        self.stage = Stage::Value;
        Ok(3 + taken)
    }

    /// The body's signature, n bytes further: what comes before its text, which is wanted next.
    pub(crate) fn types(&mut self, code: u8, n: usize, bytes: &[u8]) -> Result<usize, Stop>
        requires valid { (to : To) × WantsValue self.old code n to }
        requires wanted { OfType (TextType SIGNATURE) ≡ want code }
        ensures moves { (to : To) → WantsValue self.old code n to →
            Moves self.old bytes.now result self.new to }
        ensures few { IfOk result (λ m. m < 4294967296) }
        ensures short { IfErr result (λ e. e ≡ Partial → length bytes.now < 11) }
    {
        let at = self.offset + n;
        only_front(b'g', bytes, at, self.end)?;
        let size = short_length_front(rest_after(bytes, 3), at + 3, self.end)?;
        self.seen.note(code);
        self.signature.clear();
        self.offset = at + 4;
        self.values
            .begin_text(TextKind::Signature, self.offset, size, self.end)?;
        self.stage = Stage::Types;
        Ok(4)
    }

    /// The value of a field of this code, n bytes further: all of it, or what is read before it
    /// goes on by itself.
    fn value(&mut self, code: u8, n: usize, bytes: &[u8]) -> Result<usize, Stop>
        requires valid { (to : To) × WantsValue self.old code n to }
        requires deep { 3 ≤ self.old.limits.depth }
        requires stage { self.old.stage ≡ Fields }
        ensures moves { (to : To) → WantsValue self.old code n to →
            Moves self.old bytes.now result self.new to }
        ensures few { IfOk result (λ m. m < 4294967296) }
        ensures short { IfErr result (λ e. e ≡ Partial → length bytes.now < 11) }
    {
        let at = self.offset + n;
        match want(code) {
            Wanted::Anything => {
                // It is that of a variant.
                self.hold(code, n, b"v", self.limits.depth - FIELD_DEPTH + 1);
                Ok(0)
            }
            Wanted::Path => self.path(code, n, bytes),
            Wanted::Signature => self.types(code, n, bytes),
            Wanted::Name(kind) => self.name(kind, code, n, bytes),
            Wanted::Serial => {
                let taken = uint32_field(true, bytes, at, self.end, self.order)?;
                self.seen.note(code);
                self.offset += n + taken.1;
                Ok(taken.1)
            }
            Wanted::Number => {
                let (count, size) = uint32_field(false, bytes, at, self.end, self.order)?;
                self.fds = count;
                self.seen.note(code);
                self.offset += n + size;
                Ok(size)
            }
        }
    }

    /// Takes the next field, or what comes before its value if that may be long.
    pub(crate) fn field(&mut self, bytes: &[u8]) -> Result<usize, Stop>
        requires valid { (to : To) × WantsFields self.old to }
        requires more { self.old.offset < self.old.end }
        requires stage { self.old.stage ≡ Fields }
        ensures moves { (to : To) → WantsFields self.old to →
            Moves self.old bytes.now result self.new to }
        ensures some { IfOk result (λ n. 0 < n) }
        ensures short { IfErr result (λ e. e ≡ Partial → length bytes.now < 20) }
    {
        let (code, n) = self.code(bytes)?;
        let size = self.value(code, n, rest_after(bytes, n))?;
        Ok(n + size)
    }
}
