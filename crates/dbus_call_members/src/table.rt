//! The members with most time first, and their lines.
#![tactic(auto, unfolding(crate::specs::Summing::is_short))]

ghost use Rattle.std.specs.Prelude.{◌≡◌, false, IfOk, OnOk, map, string_bytes};
ghost use Rattle.std.specs.Map.Iter.{deref_pair};
ghost use Rattle.dbus_call_members.specs.Summing.{is_short, sums_in};
ghost use Rattle.dbus_call_members.specs.Tables.{AreRows, IsTable, as_object, in_words, lasting, row_of, row_text, rows_text, times_members, times_text};
ghost use Rattle.dbus_call_lines.specs.CallLines.{behind_commas};
ghost use Rattle.dbus_call_lines.specs.Durations.{exact_text, milliseconds_text};

use crate::member_sum::MemberSum;
use crate::member_sums::MemberSums;
use dbus_call_lines::{Elapsed, Form, write_exact, write_milliseconds};
use dbus_json::write_string;
use dbus_show::{Draft, StringDraft, write_integer};
use std::alloc::AllocError;

// The members and their sums.
fn entries(sums: &MemberSums) -> Result<Vec<(&String, &MemberSum)>, AllocError>
    ensures { IfOk result (λ rows. map deref_pair rows.items ≡ sums.now.members.entries) }
{
    sums.members.iter().collect(sums.alloc)
}

// The same, those of most time first.
fn rows_of(sums: &MemberSums) -> Result<Vec<(&String, &MemberSum)>, AllocError>
    ensures { IfOk result (λ rows. AreRows (sums_in sums.now) (map row_of rows.items)) }
{
    let mut rows = entries(sums)?;
    rows.sort_by(|a, b| b
        .1
        .total
        .cmp(&a.1.total)
        .then_with(|| b.1.calls.cmp(&a.1.calls))
        .then_with(|| a.0.cmp(b.0)))?;
    Ok(rows)
}

// So many nanoseconds.
fn lasting(nanoseconds: u64) -> Elapsed
    ensures { result ≡ lasting nanoseconds }
{
    Elapsed {
        backwards: false,
        nanoseconds,
    }
}

// Appends them in milliseconds, with three digits behind the point.
fn write_lasting<D: Draft>(draft: &mut D, nanoseconds: u64)
    ensures { D.gains draft.old (milliseconds_text (lasting nanoseconds)) draft.new }
{
    write_milliseconds(draft, lasting(nanoseconds));
}

// Appends them in milliseconds, with six.
fn write_exactly<D: Draft>(draft: &mut D, nanoseconds: u64)
    ensures { D.gains draft.old (exact_text (lasting nanoseconds)) draft.new }
{
    write_exact(draft, lasting(nanoseconds));
}

// Appends how long METHOD_RETURNs took in words, if that is known of one.
fn write_times<D: Draft>(draft: &mut D, sum: MemberSum)
    ensures { D.gains draft.old (times_text sum) draft.new }
{
    if sum.timed != 0 {
        write_lasting(draft, sum.total);
        draft.push_str(" ms total ");
        write_lasting(draft, sum.total / sum.timed);
        draft.push_str(" ms mean ");
        write_lasting(draft, sum.longest);
        draft.push_str(" ms longest ");
    }
}

// Appends the line of a row in words.
fn write_words<D: Draft>(draft: &mut D, member: &str, sum: MemberSum)
    ensures { D.gains draft.old (in_words (member.now, sum)) draft.new }
{
    write_integer(draft, sum.calls);
    draft.push_str(" calls ");
    write_integer(draft, sum.replies);
    draft.push_str(" replies ");
    write_integer(draft, sum.errors);
    draft.push_str(" errors ");
    write_integer(draft, sum.unanswered);
    draft.push_str(" no reply ");
    write_times(draft, sum);
    draft.push_str(member);
    draft.push_str("\n");
}

// Appends how long METHOD_RETURNs took as members of an object, each behind a comma, if that is
// known of one.
fn write_times_members<D: Draft>(draft: &mut D, sum: MemberSum)
    ensures { D.gains draft.old (behind_commas (times_members sum)) draft.new }
{
    if sum.timed != 0 {
        draft.push_str(",\"total_milliseconds\":");
        write_exactly(draft, sum.total);
        draft.push_str(",\"mean_milliseconds\":");
        write_exactly(draft, sum.total / sum.timed);
        draft.push_str(",\"longest_milliseconds\":");
        write_exactly(draft, sum.longest);
    }
}

// Appends the line of a row as an object of JSON.
fn write_object<D: Draft>(draft: &mut D, member: &str, sum: MemberSum)
    ensures { D.gains draft.old (as_object (member.now, sum)) draft.new }
{
    draft.push_str("{\"member\":");
    write_string(draft, member);
    draft.push_str(",\"calls\":");
    write_integer(draft, sum.calls);
    draft.push_str(",\"replies\":");
    write_integer(draft, sum.replies);
    draft.push_str(",\"errors\":");
    write_integer(draft, sum.errors);
    draft.push_str(",\"no_reply\":");
    write_integer(draft, sum.unanswered);
    write_times_members(draft, sum);
    draft.push_str("}\n");
}

// Appends the line of a row.
fn write_row<D: Draft>(draft: &mut D, form: Form, row: (&String, &MemberSum))
    ensures { D.gains draft.old (row_text form (row_of row.entry)) draft.new }
{
    match form {
        Form::Text => write_words(draft, row.0.as_str(), *row.1),
        Form::Json => write_object(draft, row.0.as_str(), *row.1),
    }
}

// Appends the line of each row.
fn write_rows<D: Draft>(draft: &mut D, form: Form, rows: &[(&String, &MemberSum)])
    ensures { D.gains draft.old (rows_text form (map row_of rows.now)) draft.new }
{
    for row in rows {
        write_row(draft, form, *row);
    }
}

// Writes the table into an empty text.
fn table_into(out: &mut String, form: Form, sums: &MemberSums) -> Result<(), AllocError>
    ensures { OnOk result (IsTable form (sums_in sums.now) (string_bytes out.new)) }
{
    let rows = rows_of(sums)?;
    let mut draft = StringDraft::new(out);
    write_rows(&mut draft, form, &rows);
    draft.finish()
}

impl MemberSums {
    ghost use Rattle.dbus_call_members.specs.Summing.{is_short, sums_in};
    ghost use Rattle.dbus_call_members.specs.Tables.{IsTable};

    /// The table as text: a line for each member that was called, in this form. A member whose
    /// METHOD_RETURNs took more time comes first; of those that took as much, the one with more
    /// calls; and of those that have as many, the one whose bytes come first. In words a line is
    /// `N calls N replies N errors N no reply MEMBER`, and before the member, if it is known of a
    /// METHOD_RETURN how long it took, `T ms total T ms mean T ms longest`: how long these took
    /// together, in the mean and at most. In JSON, RFC 8259, these are `member`, `calls`, `replies`,
    /// `errors`, `no_reply`, `total_milliseconds`, `mean_milliseconds` and `longest_milliseconds`.
    ///
    /// `AllocError`: an allocation failed, now or before.
    pub fn table(&self, form: Form) -> Result<String, AllocError>
        ensures short { IfOk result (λ text. is_short self.now ≡ false) }
        ensures table { IfOk result (λ text. IsTable form (sums_in self.now) (string_bytes text)) }
    {
        if !self.complete {
            return Err(AllocError);
        }
        let mut text = String::new(self.alloc);
        table_into(&mut text, form, self)?;
        Ok(text)
    }
}
