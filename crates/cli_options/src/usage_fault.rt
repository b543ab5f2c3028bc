//! Why words name no command.
ghost use Rattle.cli_options.specs.Told.{IsUsageOrMemory};

use dbus_match::RuleReason;
use std::alloc::Global;

/// Why the words of a command line name no command.
#[derive(Debug, Drop)]
pub enum UsageFault {
    /// An allocation failed.
    Memory,
    /// Help was asked for: its text, which ends in LF.
    Help(String),
    /// The version was asked for: the program's name and its version, which ends in LF.
    Version(String),
    /// The words are wrong: the text that says how, which ends in LF.
    Usage(String),
    /// The words have a text that spells no rule: the first of these.
    Rule(RefusedRule),
}

/// A text that spells no rule.
#[derive(Debug, Drop)]
pub struct RefusedRule {
    /// The text.
    pub text: String,
    /// The place of its one fault, in bytes from its start.
    pub at: usize,
    /// The reason.
    pub reason: RuleReason,
    /// Whether the words ask for an explanation of it.
    pub explains: bool,
}

/// A fault of usage with this text.
pub(crate) fn usage(alloc: Global, text: &str) -> UsageFault
    ensures { IsUsageOrMemory result }
{
    match String::from_str(alloc, text) {
        Ok(text) => UsageFault::Usage(text),
        Err(_) => UsageFault::Memory,
    }
}

/// A word that an option does not take, reported as `clap` reports it.
pub(crate) fn bad_value(alloc: Global, word: &str, option: &str, possible: &str) -> UsageFault
    ensures { IsUsageOrMemory result }
{
    let told = format!(in alloc;
        "error: invalid value '{word}' for '{option}'\n  [possible values: {possible}]\n\nFor more information, try '--help'.\n"
    );
    match told {
        Ok(text) => UsageFault::Usage(text),
        Err(_) => UsageFault::Memory,
    }
}
