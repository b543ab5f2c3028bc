//! Where a text stops being JSON.
#![tactic(auto)]

ghost use Rattle.std.specs.Prelude.{◌≤◌, IfOk, length};

use json::{Reader, Scratch, Token};
use std::alloc::{AllocError, Allocator};

/// The offset of the first token that no JSON value has after those before it, as a name that no
/// colon follows, or that opens an array or object too many; the end of the text if no token is
/// one. The text is known to be no value of this depth. RFC 8259, sections 2 to 5.
pub(crate) fn broken_at<A: Allocator + Copy>(
    alloc: A,
    text: &str,
    depth: usize,
    scratch: &mut Scratch<A>,
) -> Result<usize, AllocError>
    ensures { IfOk result (λ at. at ≤ length text.now) }
{
    let mut reader = Reader::new(text, scratch)?;
    // Of each array or object that is open whether it is an object.
    let mut open: Vec<bool, A> = Vec::new(alloc);
    let mut after_key = false;
    let mut is_done = false;
    for _ in 0..text.len() {
        let at = reader.offset().min(text.len());
        let Some(token) = reader.next() else {
            return Ok(at);
        };
        let in_object = matches!(open.last(), Some(true));
        let in_array = matches!(open.last(), Some(false));
        let goes_on = !is_done
            && match token {
                Token::Bad => false,
                Token::Key(_) | Token::EndObject => in_object && !after_key,
                Token::EndArray => in_array,
                _ => !in_object || after_key,
            };
        if !goes_on {
            return Ok(at);
        }
        after_key = matches!(token, Token::Key(_));
        match token {
            Token::BeginObject | Token::BeginArray => {
                if open.len() == depth {
                    return Ok(at);
                }
                open.push(matches!(token, Token::BeginObject))?;
            }
            Token::EndObject | Token::EndArray => drop(open.pop()),
            _ => {}
        }
        is_done = open.is_empty();
    }
    Ok(text.len())
}
