//! Things that words stand for, as a byte order.
ghost use Rattle.clap.specs.Words.{Text, found_of, rows_of};
ghost use Rattle.cli_options.specs.Telling.{TellsNamed};
ghost use Rattle.cli_options.specs.Worded.{HasWord, IsWordOf, fds_word, order_word, side_word};

use crate::usage_fault::{UsageFault, bad_value};
use clap::ArgMatches;
use dbus_handshake_input::Side;
use dbus_value_model::{FdRule, Order};
use std::alloc::Global;

/// What is one of a few things, each of which a word stands for.
pub(crate) trait Worded {
    // The word of each.
    ghost word_of: { Self → Text };

    /// What the word stands for.
    fn of_word(word: &str) -> Option<Self>
        ensures { IsWordOf word_of word.now result };
}

impl Worded for Order {
    ghost word_of = { order_word };

    fn of_word(word: &str) -> Option<Self> {
        match word {
            "l" => Some(Order::Little),
            "B" => Some(Order::Big),
            _ => None,
        }
    }
}

impl Worded for Side {
    ghost word_of = { side_word };

    fn of_word(word: &str) -> Option<Self> {
        match word {
            "client" => Some(Side::Client),
            "server" => Some(Side::Server),
            _ => None,
        }
    }
}

impl Worded for FdRule {
    ghost word_of = { fds_word };

    fn of_word(word: &str) -> Option<Self> {
        match word {
            "any" => Some(FdRule::Any),
            "below-count" => Some(FdRule::BelowCount),
            _ => None,
        }
    }
}

/// What the word stands for that the option of this name is given, if it is given. `Usage`: it
/// stands for none; the text names the option and these words. `Memory`: an allocation failed.
pub(crate) fn word_named<T: Worded + Drop>(
    alloc: Global,
    inner: &ArgMatches,
    name: &str,
    option: &str,
    words: &str,
) -> Result<Option<T>, UsageFault>
    ensures { TellsNamed (HasWord T.word_of name.now (rows_of (found_of inner.now))) result }
{
    let Some(word) = inner.get_str(name) else {
        return Ok(None);
    };
    match T::of_word(word) {
        Some(thing) => Ok(Some(thing)),
        None => Err(bad_value(alloc, word, option, words)),
    }
}
