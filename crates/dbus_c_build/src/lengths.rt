//! The texts and the body, which are not to be too long.
#![tactic(auto)]

ghost use Rattle.std.specs.Prelude.{◌≡◌, List, length, Some, OnOk, IfErr};
ghost use Rattle.std.specs.Borrow.{Bor};
ghost use Rattle.dbus_message_model.specs.Messages.{FieldTree};
ghost use Rattle.dbus_c_build.specs.Drafts.{text_of};
ghost use Rattle.dbus_c_build.specs.Building.{AreShort, AreShortBelow, HaveNoBytes, IsShort, most_of};
ghost use Rattle.dbus_c_build.specs.declared.draft.Draft.{Draft};

use crate::draft::{BODY, Draft};
use crate::draft_fault::DraftFault;
use dbus_message_model::field_code::{SIGNATURE, UNIX_FDS};
use dbus_value_model::MESSAGE_LIMIT;

/// How many bytes the text of a field has at most, or the body.
fn most_of(code: u8) -> usize
    ensures { result ≡ most_of code }
{
    if code == SIGNATURE {
        255
    } else {
        MESSAGE_LIMIT as usize
    }
}

/// Whether the text of a code is not too long.
fn check_length(text: &[u8], code: u8) -> Result<(), DraftFault>
    ensures short { OnOk result (IsShort code (Some text.entry)) }
    ensures refused { IfErr result (λ why. (kept : List FieldTree) (p : Draft) →
        text_of code p ≡ Some text.entry → AreShortBelow p code → HaveNoBytes kept p why) }
{
    if text.len() > most_of(code) {
        return Err(DraftFault::TooLong(code));
    }
    Ok(())
}

/// Whether no text is too long: if one is, the first says why, the body before those of the fields
/// in the order of their codes.
pub(crate) fn check_lengths(parts: &Draft<'_>) -> Result<(), DraftFault>
    ensures short { OnOk result (AreShort parts.now) }
    ensures refused { IfErr result (λ why. (kept : List FieldTree) → HaveNoBytes kept parts.now why) }
{
    for code in BODY..UNIX_FDS {
        if let Some(text) = parts.text(code) {
            check_length(text, code)?;
        }
    }
    Ok(())
}
