//! Reading byte by byte.
#![tactic(auto)]

ghost use Rattle.std.specs.Prelude.{◌≡◌, if◌then◌else◌, Some, None};
ghost use Rattle.dbus_address.specs.declared.scan.AddressState.TheVariants.{Value};
ghost use Rattle.dbus_address.specs.Scans.{next_state, is_end, reason_in};

use crate::bytes::{is_hex, is_plain};
use crate::fault::AddressReason;

/// Where in a list of addresses a text is.
#[derive(Clone, Copy)]
pub(crate) enum AddressState {
    /// Before a transport.
    Start,
    /// In a transport.
    Transport,
    /// After the colon.
    Pairs,
    /// After a comma.
    KeyStart,
    /// In a key.
    Key,
    /// In a value.
    Value,
    /// After `%`.
    High,
    /// After `%` and a digit.
    Low,
}

/// The state, if the test holds.
fn only_if(holds: bool, state: AddressState) -> Option<AddressState>
    ensures { result ≡ (if holds then Some state else None) }
{
    if holds { Some(state) } else { None }
}

/// The state after the byte, if the byte may stand there.
pub(crate) fn next_state(state: AddressState, b: u8) -> Option<AddressState>
    ensures { result ≡ next_state state b }
{
    match state {
        AddressState::Start => only_if(is_plain(b), AddressState::Transport),
        AddressState::Transport => {
            if b == b':' {
                return Some(AddressState::Pairs);
            }
            only_if(is_plain(b), AddressState::Transport)
        }
        AddressState::Pairs => {
            if b == b';' {
                return Some(AddressState::Start);
            }
            only_if(is_plain(b), AddressState::Key)
        }
        AddressState::KeyStart => only_if(is_plain(b), AddressState::Key),
        AddressState::Key => {
            if b == b'=' {
                return Some(AddressState::Value);
            }
            only_if(is_plain(b), AddressState::Key)
        }
        AddressState::Value => next_in_value(b),
        AddressState::High => only_if(is_hex(b), AddressState::Low),
        AddressState::Low => only_if(is_hex(b), AddressState::Value),
    }
}

/// The state after a byte in a value.
fn next_in_value(b: u8) -> Option<AddressState>
    ensures { result ≡ next_state Value b }
{
    if b == b'%' {
        return Some(AddressState::High);
    }
    if b == b',' {
        return Some(AddressState::KeyStart);
    }
    if b == b';' {
        return Some(AddressState::Start);
    }
    only_if(is_plain(b), AddressState::Value)
}

/// Whether a text may end there.
pub(crate) fn is_end(state: AddressState) -> bool
    ensures { result ≡ is_end state }
{
    matches!(state, AddressState::Pairs | AddressState::Value)
}

/// What does not come there.
pub(crate) fn reason_in(state: AddressState) -> AddressReason
    ensures { result ≡ reason_in state }
{
    match state {
        AddressState::Start | AddressState::Transport => AddressReason::Transport,
        AddressState::Pairs | AddressState::KeyStart | AddressState::Key => AddressReason::Key,
        AddressState::Value => AddressReason::Value,
        AddressState::High | AddressState::Low => AddressReason::Escape,
    }
}
