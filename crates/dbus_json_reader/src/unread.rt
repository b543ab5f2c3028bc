//! Why a value of JSON is not read.
#![tactic(auto)]

ghost use Rattle.std.specs.Prelude.{◌≡◌, ◌<◌, ◌^◌, IsTrue};
ghost use Rattle.dbus_json_reader.specs.JsonReasons.{is_of_json};

use crate::reasons::JsonReason;
use std::alloc::{AllocError, AllocFailed};
use thiserror::Error;

/// Where a value of JSON shows that it spells no value or no message, and why.
#[derive(Clone, Copy, PartialEq, Eq, Debug)]
pub struct Broken {
    /// Why. It is JSON, so this is neither [`JsonReason::NotUtf8`] nor [`JsonReason::NotJson`].
    pub reason: JsonReason,
    /// The number of tokens before the one that shows it, from the first one of the value. A
    /// bracket, a brace, a name, a string, a number and a literal is one token each; a comma and a
    /// colon is none. It is the greatest `usize` if there are more.
    pub at: usize,
    pub ghost of_json: { IsTrue (is_of_json reason) },
    pub ghost fits: { at < 2 ^ 64 },
}

/// Why a value of JSON is not read.
#[derive(Clone, Copy, PartialEq, Eq, Debug, Error)]
pub enum Unread {
    /// An allocation failed.
    #[error("allocation failed")]
    Memory,
    /// It spells no value of the type that is wanted, or no valid message: the reason, and the
    /// token that shows it.
    #[error("the JSON spells no value of the type, or no message")]
    Unspelled(Broken),
}

impl Unread {
    ghost use Rattle.std.specs.Prelude.{◌≡◌, ◌+◌, ℕ};
    ghost use Rattle.dbus_json_reader.specs.JsonFaults.{IsShown, IsUnspelled, counted};
    ghost use Rattle.dbus_json_reader.specs.declared.reasons.JsonReason.{JsonReason as TheReason};

    /// The first token of the value shows it.
    pub(crate) fn here(reason: JsonReason) -> Self
        requires { IsTrue (is_of_json reason) }
        ensures { IsShown result reason 0 }
    {
        Unread::Unspelled(Broken { reason, at: 0 })
    }

    /// The same of a value that this one is in, after so many of its tokens.
    pub(crate) fn after(self, tokens: usize) -> Self
        ensures unspelled { IsUnspelled result → IsUnspelled self }
        ensures shown { (reason : TheReason) (before at : ℕ) → tokens ≡ counted before →
            IsShown self reason at → IsShown result reason (before + at) }
    {
        match self {
            Unread::Memory => Unread::Memory,
            Unread::Unspelled(Broken { reason, at }) => Unread::Unspelled(Broken {
                reason,
                at: tokens.saturating_add(at),
            }),
        }
    }
}

impl From<AllocError> for Unread {
    ghost use Rattle.dbus_json_reader.specs.declared.unread.Unread.TheVariants.{Memory};

    ghost from_gives = { λ _ e. e ≡ Memory };

    fn from(_: AllocError) -> Self {
        Unread::Memory
    }
}

impl<T: Drop> From<AllocFailed<T>> for Unread {
    ghost use Rattle.dbus_json_reader.specs.declared.unread.Unread.TheVariants.{Memory};

    ghost from_gives = { λ _ e. e ≡ Memory };

    fn from(_: AllocFailed<T>) -> Self {
        Unread::Memory
    }
}
