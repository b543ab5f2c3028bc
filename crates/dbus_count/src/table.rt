//! The names of one word, the most frequent first, and their lines.
ghost use Rattle.std.specs.Prelude.{◌≡◌, IfOk, List, OnOk, ℕ, map, nat_eq, string_bytes};
ghost use Rattle.std.specs.List.{filter, starts_with};
ghost use Rattle.std.specs.Map.Iter.{deref_pair};
ghost use Rattle.dbus_count.specs.Tables.{AreRows, AreTables, IsSummary, Row, as_object, behind, in_words, row_of, row_text, rows_text, words};
ghost use Rattle.dbus_count.specs.Counting.{counting_of};
ghost use Rattle.dbus_count.specs.NameOrder.{bytes_of};

use crate::count::Count;
use crate::counts::Counts;
use crate::form::Form;
use crate::name::Name;
use crate::span::{Span, write_span};
use dbus_json::write_string;
use dbus_show::{Draft, StringDraft, write_integer};
use std::alloc::AllocError;

// The entries of the names that begin with this word.
fn chosen<'a>(counts: &'a Counts, word: &str) -> Result<Vec<(&'a Name, &'a Count)>, AllocError>
    ensures { IfOk result (λ rows. map deref_pair rows.items ≡
        filter (λ e. starts_with nat_eq (bytes_of e.0) word.now) counts.now.names.entries) }
{
    counts
        .names
        .iter()
        .filter(|row| row.0.0.as_bytes().starts_with(word.as_bytes()))
        .collect(counts.alloc)
}

// The rows of the names that begin with this word.
fn rows_of<'a>(counts: &'a Counts, word: &str) -> Result<Vec<(&'a Name, &'a Count)>, AllocError>
    ensures { IfOk result (λ rows. AreRows (counting_of counts.now) word.now (map row_of rows.items)) }
{
    let mut rows = chosen(counts, word)?;
    rows.sort_by(|a, b| b
        .1
        .messages
        .cmp(&a.1.messages)
        .then_with(|| a.0.0.cmp(&b.0.0)))?;
    Ok(rows)
}

// What stands behind the front of a text.
fn behind<'a>(text: &'a str, front: &str) -> &'a str
    ensures { result.now ≡ behind front.now text.now }
{
    text.strip_prefix(front).unwrap_or(text)
}

// Appends the line of a row in words.
fn write_words<D: Draft>(draft: &mut D, name: &str, count: Count)
    ensures { D.gains draft.old (in_words (name.now, count)) draft.new }
{
    write_integer(draft, count.messages);
    draft.push_str(" messages ");
    write_integer(draft, count.bytes);
    draft.push_str(" bytes ");
    draft.push_str(name);
    draft.push_str("\n");
}

// Appends the line of a row as an object of JSON.
fn write_object<D: Draft>(draft: &mut D, word: &str, name: &str, count: Count)
    ensures { D.gains draft.old (as_object word.now (name.now, count)) draft.new }
{
    draft.push_str("{\"");
    draft.push_str(word);
    draft.push_str("\":");
    write_string(draft, behind(behind(name, word), " "));
    draft.push_str(",\"messages\":");
    write_integer(draft, count.messages);
    draft.push_str(",\"bytes\":");
    write_integer(draft, count.bytes);
    draft.push_str("}\n");
}

// Appends the line of a row.
fn write_row<D: Draft>(draft: &mut D, form: Form, word: &str, row: (&Name, &Count))
    ensures { D.gains draft.old (row_text form word.now (row_of row.entry)) draft.new }
{
    match form {
        Form::Text => write_words(draft, row.0.0.as_str(), *row.1),
        Form::Json => write_object(draft, word, row.0.0.as_str(), *row.1),
    }
}

// Appends the line of each row.
fn write_rows<D: Draft>(draft: &mut D, form: Form, word: &str, rows: &[(&Name, &Count)])
    ensures { D.gains draft.old (rows_text form word.now (map row_of rows.now)) draft.new }
{
    for row in rows {
        write_row(draft, form, word, *row);
    }
}

// Appends the table of the names that begin with this word.
fn write_table<D: Draft>(
    draft: &mut D,
    form: Form,
    counts: &Counts,
    word: &str,
) -> Result<(), AllocError>
    ensures { OnOk result ((rows : List Row) × AreRows (counting_of counts.now) word.now rows ×
        D.gains draft.old (rows_text form word.now rows) draft.new) }
{
    let rows = rows_of(counts, word)?;
    write_rows(draft, form, word, &rows);
    Ok(())
}

// Appends all tables.
fn write_tables<D: Draft>(draft: &mut D, form: Form, counts: &Counts) -> Result<(), AllocError>
    ensures { OnOk result ((text : List ℕ) × AreTables form (counting_of counts.now) words text ×
        D.gains draft.old text draft.new) }
{
    write_table(draft, form, counts, "type")?;
    write_table(draft, form, counts, "sender")?;
    write_table(draft, form, counts, "destination")?;
    write_table(draft, form, counts, "interface")?;
    write_table(draft, form, counts, "member")?;
    write_table(draft, form, counts, "error")
}

// Writes all tables, and the line of the span, in an empty text.
fn tables_into(
    out: &mut String,
    form: Form,
    counts: &Counts,
    span: Option<Span>,
) -> Result<(), AllocError>
    ensures { OnOk result (IsSummary form (counting_of counts.now) span (string_bytes out.new)) }
{
    let mut draft = StringDraft::new(out);
    write_tables(&mut draft, form, counts)?;
    write_span(&mut draft, form, span);
    draft.finish()
}

impl Counts {
    ghost use Rattle.dbus_count.specs.Tables.{IsSummary};

    /// The tables as text: those of types, senders, destinations, interfaces, members and errors,
    /// one after the other. A table has a line for each name that was counted, in this form. A name
    /// that more messages have comes first; of those that as many have, the one whose bytes come
    /// first. A member has its interface and a dot before it, if it has one.
    ///
    /// The last line is that of the span, if there is one: how many messages came in how many
    /// seconds, and with three digits behind the point, rounded down, how many a second these are,
    /// if it takes any time.
    ///
    /// `AllocError`: an allocation failed.
    pub fn tables(&self, form: Form, span: Option<Span>) -> Result<String, AllocError>
        ensures { IfOk result (λ text. IsSummary form (counting_of self.now) span (string_bytes text)) }
    {
        let mut text = String::new(self.alloc);
        tables_into(&mut text, form, self, span)?;
        Ok(text)
    }
}
