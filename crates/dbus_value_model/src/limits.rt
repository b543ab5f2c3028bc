//! The limits of the wire format.
#![tactic(auto)]

ghost use Rattle.std.specs.Prelude.{◌≡◌, ◌≤◌};
ghost use Rattle.dbus_value_model.specs.declared.limits.TheConstants.{ARRAY_LIMIT, DEPTH_LIMIT, MESSAGE_LIMIT};

use crate::fd_rule::FdRule;

/// The most bytes that the contents of an array have, the header's array of fields among them.
/// D-Bus Specification, "Marshaling (Wire Format)".
pub const ARRAY_LIMIT: u32 = 67_108_864;

/// The most bytes that a message has: its header, the padding after that, and its body.
/// D-Bus Specification, "Message Format".
pub const MESSAGE_LIMIT: u32 = 134_217_728;

/// The most arrays, structs and variants that are open at once in a message, those of its header
/// among them. D-Bus Specification, "Valid Signatures", for the limit on nesting.
pub const DEPTH_LIMIT: u8 = 64;

/// The limits that values are read and written within, and messages made, none of them over that of
/// the specification, and the rule on the indexes of file descriptors.
#[derive(Clone, Copy, PartialEq, Eq, Debug)]
pub struct Limits {
    /// The most bytes that a message has, at most [`MESSAGE_LIMIT`].
    pub message: u32,
    /// The most bytes that the contents of an array have, at most [`ARRAY_LIMIT`].
    pub array: u32,
    /// The most arrays, structs and variants that are open at once, at most [`DEPTH_LIMIT`].
    pub depth: u8,
    /// Which indexes of file descriptors a message's body may have.
    pub fds: FdRule,
    pub ghost message_in: { message ≤ MESSAGE_LIMIT },
    pub ghost array_in: { array ≤ ARRAY_LIMIT },
    pub ghost depth_in: { depth ≤ DEPTH_LIMIT },
}

/// What values keep when they are read, besides their types and the room for open containers.
#[derive(Clone, Copy, PartialEq, Eq, Debug)]
pub struct Bounds {
    /// The most bytes that the contents of an array have, at most [`ARRAY_LIMIT`].
    pub array: u32,
    /// The number that every index of a file descriptor is below; `None` allows any index.
    pub fds: Option<u32>,
    pub ghost array_in: { array ≤ ARRAY_LIMIT },
}

impl Limits {
    ghost use Rattle.dbus_value_model.specs.Specification.{IsLimits, specification, with_fds};
    ghost use Rattle.dbus_value_model.specs.Bounds.{bounds_of, bounds_with};

    /// These limits, which allow any index of a file descriptor, or nothing if one of them is over
    /// that of the specification.
    ///
    /// ```rust
    /// use dbus_message::decode_within;
    /// use dbus_value::Limits;
    ///
    /// // Messages of at most 4,096 bytes, arrays of at most 1,024, and eight open containers.
    /// if let Some(limits) = Limits::new(4_096, 1_024, 8) {
    ///     decode_within(alloc, bytes, limits)?;
    /// }
    /// ```
    pub fn new(message: u32, array: u32, depth: u8) -> Option<Limits>
        ensures { IsLimits message array depth result }
    {
        if message > MESSAGE_LIMIT || array > ARRAY_LIMIT || depth > DEPTH_LIMIT {
            return None;
        }
        Some(Limits {
            message,
            array,
            depth,
            fds: FdRule::Any,
        })
    }

    /// The limits of the specification, which allow any index of a file descriptor.
    pub fn specification() -> Limits
        ensures { result ≡ specification }
    {
        Limits {
            message: MESSAGE_LIMIT,
            array: ARRAY_LIMIT,
            depth: DEPTH_LIMIT,
            fds: FdRule::Any,
        }
    }

    /// These limits, with another rule on the indexes of file descriptors.
    pub fn with_fds(mut self, fds: FdRule) -> Limits
        ensures { result ≡ with_fds self fds }
    {
        self.fds = fds;
        self
    }

    /// What values keep under these limits, if any index of a file descriptor is allowed.
    pub fn bounds(self) -> Bounds
        ensures { result ≡ bounds_of self }
    {
        self.bounds_with(None)
    }

    /// What values keep under these limits, if every index of a file descriptor is below `fds`;
    /// `None` allows any. The rule of these limits on indexes is not used.
    pub fn bounds_with(self, fds: Option<u32>) -> Bounds
        ensures { result ≡ bounds_with self fds }
    {
        Bounds {
            array: self.array,
            fds,
        }
    }
}
