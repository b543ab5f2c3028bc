//! Captures read in a browser: calls that a module of WebAssembly exports, over the bytes of a
//! page. D-Bus Specification, "Message Protocol".
//!
//! [`dbus_page_unpack`] takes messages out of a file, [`dbus_page_next`] returns whether bytes
//! begin with one, [`dbus_page_json`] and [`dbus_page_line`] write it, [`dbus_page_items`] where its
//! parts stand, [`dbus_page_event`] what it tells of calls and names, [`dbus_page_explain`] and
//! [`dbus_page_reason`] why there is none, and [`dbus_page_search`] finds the next one.
//! Bytes are given as an address and a number, and structs as an address, as in C. No call
//! allocates, and the module imports nothing. `web/reader.js` calls it.
#![tactic(auto)]

mod answers;
mod event;
mod explaining;
mod items;
mod json_line;
mod line;
mod memory;
mod next;
mod reason;
mod room;
mod search;
mod time;
mod unpacking;

pub use answers::{NO_ROOM, NO_TEXT, PARTIAL, REFUSED, WHOLE};
pub use event::{
    ASKED_BY_NAME, ASKED_FOR_CALLER, ASKED_FOR_OWNER, CALL, CALL_WITHOUT_REPLY, DEPARTURE, FREE,
    LOST, NOTHING, OTHER, OWNED, PageEvent, REPLY, dbus_page_event,
};
pub use explaining::dbus_page_explain;
pub use items::dbus_page_items;
pub use json_line::{PagePlace, dbus_page_json};
pub use line::{PageBeside, dbus_page_line};
pub use next::{Next, dbus_page_next};
pub use reason::dbus_page_reason;
pub use search::{PageSearch, dbus_page_search};
pub use unpacking::{PagePart, Unpacked, dbus_page_unpack};
