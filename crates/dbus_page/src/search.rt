//! Where messages begin again in damaged bytes.
#![tactic(auto)]

ghost use Rattle.dbus_page.specs.Searching.{IsFound, Tells};

use crate::answers::{PARTIAL, REFUSED, WHOLE};
use dbus_resync::{Found, first_message};
use dbus_value_model::Limits;

/// What a search for a message comes to.
#[repr(C)]
#[derive(Drop)]
pub struct PageSearch {
    /// The offset at which the message begins, in bytes from the first, or 0 if none is found.
    pub offset: u64,
    /// How many bytes it looked at; all of its effort if that is spent.
    pub looked: u64,
}

/// The least offset at which the bytes have a whole message within the limits of the
/// specification, found within an effort, which is in bytes: [`WHOLE`] with the offset;
/// [`REFUSED`], if no message begins at any offset; or [`PARTIAL`], if none begins before the
/// effort is spent. [`dbus_resync::first_message`] says what an offset takes. It allocates nothing.
/// D-Bus Specification, "Message Format".
#[unsafe(no_mangle)]
pub extern "C" fn dbus_page_search(bytes: &[u8], effort: usize, search: &mut PageSearch) -> u32
    ensures { Tells bytes.now effort result search.new }
{
    let searched = first_message(bytes, Limits::specification(), effort);
    let (answer, offset) = answer_and_offset(searched.found);
    *search = PageSearch {
        offset,
        looked: searched.looked as u64,
    };
    answer
}

// What is told of what is found.
fn answer_and_offset(found: Found) -> (u32, u64)
    ensures { IsFound result.0 result.1 found }
{
    match found {
        Found::At(offset) => (WHOLE, offset as u64),
        Found::Nowhere => (REFUSED, 0),
        Found::Spent => (PARTIAL, 0),
    }
}
