//! Which names are wanted.
#![tactic(auto)]

ghost use Rattle.std.specs.Prelude.{◌≡◌, ℕ, List, Bool};
ghost use Rattle.dbus_names.specs.Filters.{is_well_known};

use dbus_calls::is_ownable;
use dbus_texts::{TextKind, text_break};

/// Which names are wanted.
pub trait NameFilter {
    // Whether it wants a name.
    ghost wanted: { Self → List ℕ → Bool };

    /// Whether this name is wanted.
    fn wants(&self, name: &str) -> bool
        ensures { result ≡ wanted self.now name.now };
}

/// All names that a connection may have beside its unique one. A signal of the bus may hold any
/// text in place of a name, so this wants valid bus names alone. D-Bus Specification, "Bus names".
#[derive(Clone, Copy, Drop)]
pub struct WellKnownNames;

impl NameFilter for WellKnownNames {
    ghost wanted = { λ all. is_well_known };

    fn wants(&self, name: &str) -> bool {
        is_well_known(name)
    }
}

// Whether the text is a bus name that a connection may have beside its unique one.
fn is_well_known(name: &str) -> bool
    ensures { result ≡ is_well_known name.now }
{
    is_ownable(name) && text_break(TextKind::BusName, name.as_bytes()).is_none()
}
