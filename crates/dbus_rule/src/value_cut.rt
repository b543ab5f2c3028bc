//! The value of a pair, cut out of a rule's text byte by byte.
#![tactic(auto)]

ghost use Rattle.std.specs.Prelude.{◌≡◌, ℕ, ◌≤◌, List, [], drop, length, vec_items, IfOk};
ghost use Rattle.dbus_rule.specs.declared.value_cut.Mode.TheVariants.{Outside};
ghost use Rattle.dbus_rule.specs.Values.{scan, quote_first, cut_of};

use std::alloc::{AllocError, Allocator};

/// The state of reading a value.
#[derive(Clone, Copy)]
pub(crate) enum Mode {
    /// Outside apostrophes.
    Outside,
    /// After a backslash before an apostrophe, outside apostrophes.
    Escape,
    /// Inside apostrophes, of which the first is at this place.
    Inside(usize),
}

/// What a value's text gives.
#[derive(Drop)]
pub(crate) enum Cut<A: Allocator> {
    /// The value, and the place where its text ends.
    Closed(Vec<u8, A>, usize),
    /// The place of an apostrophe that is not closed.
    Open(usize),
}

/// Whether the byte at the place is an apostrophe.
fn is_quote_at(text: &[u8], place: usize) -> bool
    ensures { result ≡ quote_first (drop place text.now) }
{
    place < text.len() && text[place] == b'\''
}

/// Reads the value whose text begins at `from`, up to a comma outside apostrophes or the text's
/// end.
pub(crate) fn cut_value<A: Allocator + Copy>(
    alloc: A,
    text: &[u8],
    from: usize,
) -> Result<Cut<A>, AllocError>
    requires { from ≤ length text.now }
    ensures { IfOk result (λ cut. cut_of text.now cut ≡ scan Outside from [] (drop from text.now)) }
{
    let mut value = Vec::new(alloc);
    let mut mode = Mode::Outside;
    for i in from..text.len() {
        let b = text[i];
        match mode {
            Mode::Outside => {
                if b == b',' {
                    return Ok(Cut::Closed(value, i));
                }
                if b == b'\'' {
                    mode = Mode::Inside(i);
                } else if b == b'\\' && is_quote_at(text, i + 1) {
                    mode = Mode::Escape;
                } else {
                    value.push(b)?;
                }
            }
            Mode::Escape => {
                value.push(b)?;
                mode = Mode::Outside;
            }
            Mode::Inside(_) => {
                if b == b'\'' {
                    mode = Mode::Outside;
                } else {
                    value.push(b)?;
                }
            }
        }
    }
    match mode {
        Mode::Inside(at) => Ok(Cut::Open(at)),
        _ => Ok(Cut::Closed(value, text.len())),
    }
}
