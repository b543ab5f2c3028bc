//! Why a text spells no rule.
#![tactic(auto)]

ghost use Rattle.std.specs.Prelude.{◌≡◌};
ghost use Rattle.dbus_rule.specs.declared.fault.RuleFault.TheVariants.{Memory};

use std::alloc::{AllocError, AllocFailed};
use thiserror::Error;

/// Why a text spells no rule, and where: places count the bytes of the text.
#[derive(Clone, Copy, PartialEq, Eq, Debug, Error)]
pub enum RuleFault {
    /// An allocation failed.
    #[error("allocation failed")]
    Memory,
    /// The text spells no rule, for this reason, at this place.
    #[error("{reason} at offset {at}")]
    Bad { at: usize, reason: RuleReason },
}

/// Why a text spells no rule.
///
/// `Nul` comes before all others. Then the pairs are read from the left, and within a pair the
/// reasons come in the order of this list. D-Bus Specification, "Match Rules"; the reasons, their
/// order and their places are this project's own.
#[derive(Clone, Copy, PartialEq, Eq, Debug)]
pub enum RuleReason {
    /// U+0000, at the first of them.
    Nul,
    /// A pair without `=`: at the comma, or the text's end, that comes before one.
    NoEquals,
    /// What comes before `=` is no key: at its first byte that is no space, or at the `=` if there
    /// is none.
    KeyName,
    /// The key is in an earlier pair: at its first byte.
    KeyTwice,
    /// `path` and `path_namespace` are in one rule: at the first byte of the second of the two.
    PathAndNamespace,
    /// An apostrophe is not closed: at that apostrophe.
    OpenQuote,
    /// The key does not take the value: at the byte after `=`.
    BadValue,
}

impl From<AllocError> for RuleFault {
    ghost from_gives = { λ _ e. e ≡ Memory };

    fn from(_: AllocError) -> Self {
        RuleFault::Memory
    }
}

impl<T: Drop> From<AllocFailed<T>> for RuleFault {
    ghost from_gives = { λ _ e. e ≡ Memory };

    fn from(_: AllocFailed<T>) -> Self {
        RuleFault::Memory
    }
}
