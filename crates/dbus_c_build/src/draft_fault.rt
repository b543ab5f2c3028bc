//! Why nothing is built.

use dbus_body::PutFault;
use dbus_value_model::Fault;
use std::alloc::AllocError;

/// Why nothing is built of parts. All but `Memory` say that no message has them. A code is that of
/// a header field; 0 stands for the body. Of several faults it is the first: the length of a text,
/// the body's before those of the fields in the order of their codes; then the length of all
/// fields; then the fault of the bytes.
#[derive(Clone, Copy, PartialEq, Eq, Debug, Drop)]
pub enum DraftFault {
    /// An allocation failed.
    Memory,
    /// The text of this field, or the body, is longer than any message has one: a SIGNATURE has at
    /// most 255 bytes, each other at most 134,217,728. Or it is 0, and all header fields together
    /// have more than 67,108,864 bytes.
    TooLong(u8),
    /// The bytes that the parts spell are no message within the limits: their fault, at an offset
    /// from the first of them, and the code of the header field that it is of, 0 for none.
    Format(Fault, u8),
}

impl From<AllocError> for DraftFault {
    ghost use Rattle.std.specs.Prelude.{◌≡◌};
    ghost use Rattle.dbus_c_build.specs.declared.draft_fault.DraftFault.TheVariants.{Memory};

    ghost from_gives = { λ _ e. e ≡ Memory };

    fn from(_: AllocError) -> Self {
        DraftFault::Memory
    }
}

/// The texts are short enough for their lengths by then, so that nothing but memory runs out.
impl From<PutFault> for DraftFault {
    ghost use Rattle.std.specs.Prelude.{◌≡◌};
    ghost use Rattle.dbus_c_build.specs.declared.draft_fault.DraftFault.TheVariants.{Memory};

    ghost from_gives = { λ _ e. e ≡ Memory };

    fn from(_: PutFault) -> Self {
        DraftFault::Memory
    }
}
