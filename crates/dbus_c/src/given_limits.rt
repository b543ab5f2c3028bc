//! The limits that a caller in C passes.
#![tactic(auto)]

ghost use Rattle.std.specs.Prelude.{◌≡◌, min};
ghost use Rattle.dbus_value_model.specs.Specification.{specification};
ghost use Rattle.dbus_c.specs.GivenLimits.{limits_of, rule_of, specification_given};

use dbus_value_model::{ARRAY_LIMIT, DEPTH_LIMIT, FdRule, Limits, MESSAGE_LIMIT};

/// The number of the rule that allows any index of a file descriptor.
pub const ANY_INDEX: u32 = 0;

/// The number of the rule that each index of a file descriptor is below their count.
pub const INDEX_BELOW_COUNT: u32 = 1;

/// Limits as four numbers of 32 bits, in this order. A number over the specification's stands for
/// the specification's.
///
/// D-Bus Specification, "Message Format", "Marshaling (Wire Format)", "Valid Signatures", "Header
/// Fields".
#[repr(C)]
#[derive(Drop)]
pub struct WireLimits {
    /// The most bytes that a message has.
    pub message: u32,
    /// The most bytes that the contents of an array have.
    pub array: u32,
    /// The most arrays, structs and variants that are open at once.
    pub depth: u32,
    /// The rule on indexes of file descriptors: [`ANY_INDEX`]; each other number is
    /// [`INDEX_BELOW_COUNT`].
    pub fds: u32,
}

/// Writes the limits of the specification, which allow any index of a file descriptor.
#[tactic(auto, using(crate::proofs::MeantLimits::specification_meant))]
#[unsafe(no_mangle)]
pub extern "C" fn dbus_wire_specification_limits(out: &mut WireLimits)
    ensures numbers { out.new ≡ specification_given }
    ensures meant { limits_of out.new ≡ specification }
{
    *out = WireLimits {
        message: MESSAGE_LIMIT,
        array: ARRAY_LIMIT,
        depth: u32::from(DEPTH_LIMIT),
        fds: ANY_INDEX,
    };
}

/// The limits that the numbers stand for.
pub(crate) fn given_limits(given: &WireLimits) -> Limits
    ensures { result ≡ limits_of given.now }
{
    Limits {
        message: at_most(given.message, MESSAGE_LIMIT),
        array: at_most(given.array, ARRAY_LIMIT),
        depth: at_most(given.depth, u32::from(DEPTH_LIMIT)) as u8,
        fds: rule_numbered(given.fds),
    }
}

/// The number, or `most` if it is above that.
pub(crate) fn at_most(number: u32, most: u32) -> u32
    ensures { result ≡ min number most }
{
    if number < most { number } else { most }
}

/// The rule on UNIX_FD indexes that C names by this number.
fn rule_numbered(number: u32) -> FdRule
    ensures { result ≡ rule_of number }
{
    if number == ANY_INDEX {
        FdRule::Any
    } else {
        FdRule::BelowCount
    }
}
