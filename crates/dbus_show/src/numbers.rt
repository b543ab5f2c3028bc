//! Numbers as text.
#![tactic(auto)]

use crate::draft::Draft;
use itoa::{Buffer, Integer};

/// Appends a number in decimal.
pub fn write_integer<D: Draft, I: Integer>(draft: &mut D, number: I)
    ensures { D.gains draft.old (I.text number) draft.new }
{
    let mut buffer = Buffer::new();
    draft.push_str(buffer.format(number));
}
