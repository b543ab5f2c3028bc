//! What holds of tables of members: what a function here ensures is a fact about the definitions,
//! and it does nothing when it runs.
#![tactic(auto)]

ghost use Rattle.dbus_call_members.specs.Tables.{OneTable};

/// Sums have one text of their table.
pub fn one_table()
    ensures { OneTable }
{}
