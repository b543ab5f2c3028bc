//! The columns of connections. D-Bus Specification, "Message Bus Names".
#![tactic(auto)]

ghost use Rattle.std.specs.Prelude.{◌≡◌, Some, length, option_map};
ghost use Rattle.dbus_list.specs.Columns.{column, connection, known_room, name_column};

use crate::columns::{LONGEST_NAME, fits, name_cells, write_short, write_spaces};
use dbus_show::Draft;

/// The cells of a connection's column, if a line has no bound.
const UNBOUNDED_COLUMN: usize = 20;

/// How many cells the column of a connection has in a line of so many.
fn name_column(line: u16) -> usize
    ensures { result ≡ name_column line }
{
    if line == 0 {
        UNBOUNDED_COLUMN
    } else {
        name_cells(line)
    }
}

/// How many cells are left behind a name for another one in brackets.
fn known_room(line: u16, name: &str) -> usize
    ensures { result ≡ known_room line name.now }
{
    if line == 0 {
        return LONGEST_NAME;
    }
    name_cells(line)
        .saturating_sub(name.len())
        .saturating_sub(2)
}

/// Appends a name, and behind it in brackets the one by which its connection is known, if that fits
/// with its last element: how many cells they take.
fn write_known<D: Draft>(draft: &mut D, line: u16, name: &str, known: &str) -> usize
    ensures written { D.gains draft.old (connection line name.now (Some known.now)) draft.new }
    ensures size { result ≡ length (connection line name.now (Some known.now)) }
{
    let room = known_room(line, name);
    if !fits(known, room) {
        return write_short(draft, name, name_cells(line));
    }
    draft.push_str(name);
    draft.push_code(b'(');
    let taken = write_short(draft, known, room);
    draft.push_code(b')');
    name.len() + taken + 2
}

/// Appends a connection as it fits: how many cells it takes.
#[inline(always)]
fn write_connection<D: Draft>(draft: &mut D, line: u16, name: &str, known: Option<&str>) -> usize
    ensures written { D.gains draft.old (connection line name.now (option_map (λ k. k.now) known.entry)) draft.new }
    ensures size { result ≡ length (connection line name.now (option_map (λ k. k.now) known.entry)) }
{
    match known {
        Some(known) => write_known(draft, line, name, known),
        None => write_short(draft, name, name_cells(line)),
    }
}

/// Appends a connection in its column of a line of so many cells: a name of its own, and the one by
/// which it is known.
#[inline(always)]
pub(crate) fn write_column<D: Draft>(draft: &mut D, line: u16, name: &str, known: Option<&str>)
    ensures { D.gains draft.old (column line name.now (option_map (λ k. k.now) known.entry)) draft.new }
{
    let taken = write_connection(draft, line, name, known);
    write_spaces(draft, name_column(line).saturating_sub(taken));
}
