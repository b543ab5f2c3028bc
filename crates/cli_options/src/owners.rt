//! The owners that `--owner NAME=UNIQUE` gives.
ghost use Rattle.std.specs.Prelude.{◌≡◌, ◌↔◌, IsTrue, map};
ghost use Rattle.cli_options.specs.Owners.{IsUnique, IsWellKnown};
ghost use Rattle.cli_options.specs.Told.{IsUsageOrMemory, TellsOwner, TellsOwners};

use crate::usage_fault::{UsageFault, bad_value};
use dbus_match::Owner;
use dbus_texts::{check_bus_name, is_unique};
use std::alloc::Global;

/// The owners that these words give, in their order. `Usage`: one of them gives none. `Memory`: an
/// allocation failed.
pub(crate) fn owners_given(alloc: Global, words: &[&str]) -> Result<Vec<Owner>, UsageFault>
    ensures { TellsOwners (map (λ word. word.now) words.now) result }
{
    let mut owners = Vec::new(alloc);
    for word in words {
        let owner = owner_given(alloc, word)?;
        if owners.push(owner).is_err() {
            return Err(UsageFault::Memory);
        }
    }
    Ok(owners)
}

// The owner that a word gives.
fn owner_given(alloc: Global, word: &str) -> Result<Owner, UsageFault>
    ensures { TellsOwner word.now result }
{
    let Some((name, unique)) = word.split_once('=') else {
        return Err(bad_owner(alloc, word));
    };
    if !is_ownership(name, unique) {
        return Err(bad_owner(alloc, word));
    }
    match (
        String::from_str(alloc, name),
        String::from_str(alloc, unique),
    ) {
        (Ok(name), Ok(unique)) => Ok(Owner { name, unique }),
        _ => Err(UsageFault::Memory),
    }
}

// A word that gives no owner.
fn bad_owner(alloc: Global, word: &str) -> UsageFault
    ensures { IsUsageOrMemory result }
{
    bad_value(
        alloc,
        word,
        "--owner <NAME=UNIQUE>",
        "a well-known bus name, = and a unique one, as org.a.B=:1.7",
    )
}

// Whether a connection of this unique name may own this well-known name.
fn is_ownership(name: &str, unique: &str) -> bool
    ensures { IsTrue result ↔ (IsWellKnown name.now × IsUnique unique.now) }
{
    is_well_known_name(name) && is_unique_name(unique)
}

// Whether the text is a bus name that a connection can own beside its unique one.
fn is_well_known_name(text: &str) -> bool
    ensures { IsTrue result ↔ IsWellKnown text.now }
{
    check_bus_name(text.as_bytes()).is_ok() && !is_unique(text.as_bytes())
}

// Whether the text is the unique bus name of a connection.
fn is_unique_name(text: &str) -> bool
    ensures { IsTrue result ↔ IsUnique text.now }
{
    check_bus_name(text.as_bytes()).is_ok() && is_unique(text.as_bytes())
}
