//! The law that joins writing and reading: what the function here ensures is a fact about the
//! definitions, and it does nothing when it runs. D-Bus Specification, "Marshaling (Wire Format)".
#![tactic(auto)]

ghost use Rattle.dbus_value_model.specs.RoundTrip.{WrittenIsRead};

use std::alloc::Allocator;

/// `get_within` gives back what `put_within` wrote: at every offset, in both orders and whatever
/// bytes follow, a value that passes `check_value_within` and was written there is what reading its
/// type at its place returns, up to the place where `size_after_within` has it end; else only an
/// allocation failed. The check allows any index of a file descriptor: if `get_within` is handed a
/// number, the value's indexes have to be below it.
pub fn written_is_read<A: Allocator>()
    ensures { WrittenIsRead A }
{}
