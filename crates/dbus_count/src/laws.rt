//! Laws over tables: what a function here ensures is a fact about the definitions, and it does
//! nothing when it runs.
#![tactic(auto)]

ghost use Rattle.dbus_count.specs.Spans.{EachSpan};
ghost use Rattle.dbus_count.specs.Tables.{OneTable};

/// Counts have one text of their tables.
pub fn one_table()
    ensures { OneTable }
{}

/// Times, one after the other, have the span from the least to the greatest of them.
#[tactic(auto, using(crate::proofs::SpanLaws::each_span))]
pub fn each_span()
    ensures { EachSpan }
{}
