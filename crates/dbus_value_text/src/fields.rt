//! Header fields as text, from a message's bytes. D-Bus Specification, "Header Fields".
#![tactic(auto)]

ghost use Rattle.std.specs.Prelude.{◌≡◌, ℕ, List, drop, nat_lt};
ghost use Rattle.std.specs.List.{list_all, list_any};
ghost use Rattle.dbus_message_model.specs.Messages.{FieldTree, MessageTree};
ghost use Rattle.dbus_value_text.specs.Forms.{led, AreFieldTexts, taken_fields};
ghost use Rattle.dbus_value_text.specs.Runs.{AreInRun, IsRun};
ghost use Rattle.dbus_validate.specs.Validating.{WasValidated, IsWholeOf};

use crate::field_form::FieldForm;
use dbus_show::Draft;
use dbus_validate::Whole;
use dbus_walk::{FIELDS_START, MessageBytes, Spot, field_at, fields_end, lengths_of, skip_value};

/// Which header fields of a message a form took.
#[derive(Clone, Copy)]
pub struct FieldsTaken {
    /// Whether it took all of them.
    pub all: bool,
    /// The place after the last field that it took, counted from 0, or 0 if it took none.
    pub end: usize,
}

/// Header fields that stand in the bytes of a message, from [`FIELDS_START`] up to an end.
#[derive(Clone, Copy)]
pub struct FieldRun<'a> {
    /// The bytes.
    pub source: MessageBytes<'a>,
    /// The number of containers that may be open in the message.
    pub depth_left: u8,
    /// The offset after the last of the fields.
    pub end: usize,
}

impl<'a> FieldRun<'a> {
    /// All header fields of a message. D-Bus Specification, "Header Fields".
    pub fn of(whole: &Whole<'a>) -> FieldRun<'a>
        requires validated { WasValidated whole.now }
        ensures stand { IsRun result }
        ensures fields { (m : MessageTree) → IsWholeOf whole.now m →
            (rest : List ℕ) × AreInRun result m.fields rest }
    {
        let source = whole.source();
        FieldRun {
            source,
            depth_left: whole.limits.depth,
            end: fields_end(&source),
        }
    }
}

/// Appends the header fields of a message that a form takes, in their order: the first after a
/// lead, and each other after a separator. It says which it took. D-Bus Specification, "Header
/// Fields".
pub fn write_fields<F: FieldForm, D: Draft>(
    draft: &mut D,
    whole: &Whole<'_>,
    form: &F,
    lead: &str,
    separator: &str,
) -> FieldsTaken
    requires validated { WasValidated whole.now }
    ensures written { (m : MessageTree) → IsWholeOf whole.now m →
        (texts : List (List ℕ)) ×
        AreFieldTexts (F.is_text form.now) (taken_fields F.is_taken m.fields) texts ×
        D.gains draft.old (led lead.now separator.now texts) draft.new }
    ensures all { (m : MessageTree) → IsWholeOf whole.now m →
        result.all ≡ list_all (λ f. F.is_taken f.code) m.fields }
    ensures end { (m : MessageTree) → IsWholeOf whole.now m → (place : ℕ) →
        list_any (λ f. F.is_taken f.code) (drop place m.fields) ≡ nat_lt place result.end }
{
    write_field_run(draft, &FieldRun::of(whole), form, lead, separator)
}

/// Appends the header fields of a run that a form takes, in their order, as [`write_fields`] does.
/// It says which it took. D-Bus Specification, "Header Fields".
pub fn write_field_run<F: FieldForm, D: Draft>(
    draft: &mut D,
    run: &FieldRun<'_>,
    form: &F,
    lead: &str,
    separator: &str,
) -> FieldsTaken
    requires stand { IsRun run.now }
    ensures written { (fs : List FieldTree) (rest : List ℕ) → AreInRun run.now fs rest →
        (texts : List (List ℕ)) ×
        AreFieldTexts (F.is_text form.now) (taken_fields F.is_taken fs) texts ×
        D.gains draft.old (led lead.now separator.now texts) draft.new }
    ensures all { (fs : List FieldTree) (rest : List ℕ) → AreInRun run.now fs rest →
        result.all ≡ list_all (λ f. F.is_taken f.code) fs }
    ensures end { (fs : List FieldTree) (rest : List ℕ) → AreInRun run.now fs rest →
        (place : ℕ) →
        list_any (λ f. F.is_taken f.code) (drop place fs) ≡ nat_lt place result.end }
{
    let mut table = [0; 255];
    let mut at = FIELDS_START;
    let mut place = 0;
    let mut before = lead;
    let mut taken = FieldsTaken { all: true, end: 0 };
    while at < run.end {
        let field = field_at(&run.source, at, run.depth_left);
        let spot = Spot {
            at: field.at,
            types: field.types,
            lengths: lengths_of(field.types, &mut table),
            depth_left: field.depth_left,
        };
        let this = place;
        place += 1;
        if F::takes(field.code) {
            draft.push_str(before);
            before = separator;
            at = form.field(draft, &run.source, this, field.code, &spot);
            taken.end = place;
        } else {
            taken.all = false;
            at = skip_value(&run.source, &spot);
        }
    }
    taken
}
