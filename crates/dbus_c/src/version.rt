//! The version of the library.
#![tactic(auto)]

ghost use Rattle.std.specs.Prelude.{◌≡◌};

/// The version 0.1.0: its first number times 65,536, its second times 256, and its third.
pub const VERSION: u32 = 0x100;

/// The version of the library that is linked or loaded, beside which C holds the one that it was
/// compiled with.
#[unsafe(no_mangle)]
pub extern "C" fn dbus_wire_version() -> u32
    ensures { result ≡ VERSION }
{
    VERSION
}
