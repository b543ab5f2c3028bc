//! Names of header fields as text.
#![tactic(auto)]

ghost use Rattle.dbus_show.specs.ShownMessages.{field_name};

use crate::draft::Draft;
use crate::numbers::write_integer;

/// Appends the name of the field with this code between two texts, all at once; `$other` is what it
/// does of a code that has no name. D-Bus Specification, "Header Fields".
#[macro_export]
macro_rules! push_field_name {
    ($draft:expr, $code:expr, $before:literal, $after:literal, $other:expr) => {
        match $code {
            1 => $draft.push_str(concat!($before, "path", $after)),
            2 => $draft.push_str(concat!($before, "interface", $after)),
            3 => $draft.push_str(concat!($before, "member", $after)),
            4 => $draft.push_str(concat!($before, "error_name", $after)),
            5 => $draft.push_str(concat!($before, "reply_serial", $after)),
            6 => $draft.push_str(concat!($before, "destination", $after)),
            7 => $draft.push_str(concat!($before, "sender", $after)),
            8 => $draft.push_str(concat!($before, "signature", $after)),
            9 => $draft.push_str(concat!($before, "unix_fds", $after)),
            _ => $other,
        }
    };
}

/// Appends the name of a field with this code. D-Bus Specification, "Header Fields".
pub fn write_field_name<D: Draft>(draft: &mut D, code: u8)
    ensures { D.gains draft.old (field_name code) draft.new }
{
    push_field_name!(
        draft,
        code,
        "",
        "",
        {
            draft.push_str("field");
            write_integer(draft, code);
        }
    )
}
