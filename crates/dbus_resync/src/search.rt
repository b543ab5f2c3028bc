//! The first message in bytes, found within an effort.
ghost use Rattle.std.specs.Prelude.{◌≡◌, ◌≤◌, length};
ghost use Rattle.dbus_resync.specs.Search.{KeepsEffort, Finds, Looks};

use crate::found::{Found, Searched};
use dbus_header::stated_length_within;
use dbus_validate::validate;
use dbus_value_model::Limits;

/// The least offset at which the bytes have a whole message within the limits, found within an
/// effort.
///
/// The effort is in bytes: an offset takes as many as it states a message to have, by its first 16
/// bytes, if so many are there; and none if fewer are, or if these 16 are at fault, since no whole
/// message begins there. `At`: the offset, if those up to it and it take no more than the effort.
/// `Nowhere`: no message begins at any offset, and all of them take no more than the effort.
/// `Spent`: none begins before some offset, and those up to it and it take more. So the time is at
/// most that of validating as many bytes as the effort, and of reading 16 at each offset. What it
/// took is returned too. Nothing is allocated. D-Bus Specification, "Message Format".
pub fn first_message(bytes: &[u8], limits: Limits, effort: usize) -> Searched
    ensures finds { Finds limits bytes.now result.found }
    ensures effort { KeepsEffort limits bytes.now effort result.looked result.found }
{
    let mut left = effort;
    for at in 0..bytes.len() {
        let rest = &bytes[at..];
        let size = size_there(rest, limits);
        if size > left {
            return Searched {
                found: Found::Spent,
                looked: effort,
            };
        }
        left -= size;
        if size > 0 && validate(rest, limits).is_some() {
            return Searched {
                found: Found::At(at),
                looked: effort - left,
            };
        }
    }
    Searched {
        found: Found::Nowhere,
        looked: effort - left,
    }
}

/// How many bytes [`first_message`] looks at for a message that begins with these: as many as their
/// first 16 state that it has, if so many are there; else 0. D-Bus Specification, "Message Format".
pub fn size_there(bytes: &[u8], limits: Limits) -> usize
    ensures looks { Looks limits bytes.now result }
    ensures within { result ≤ length bytes.now }
{
    match stated_length_within(bytes, limits) {
        Ok(Some(size)) => {
            if size <= bytes.len() as u64 {
                size as usize
            } else {
                0
            }
        }
        Ok(None) => 0,
        Err(_fault) => 0,
    }
}
