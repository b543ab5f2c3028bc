//! Copies of types.
#![tactic(auto)]

ghost use Rattle.std.specs.Prelude.{◌≡◌};
ghost use Rattle.dbus_types.specs.SigTypes.{type_tree};

use crate::sig_type::SigType;
use std::alloc::{AllocError, Allocator};

impl<A: Allocator> Clone for SigType<A> {
    ghost is_clone = { λ ty copy. type_tree copy ≡ type_tree ty };

    /// The same type again, which shares the types inside this one and allocates nothing.
    ///
    /// `AllocError` only if a type inside has 2⁶³ owners already.
    fn clone(&self) -> Result<SigType<A>, AllocError> {
        match self {
            SigType::Byte => Ok(SigType::Byte),
            SigType::Bool => Ok(SigType::Bool),
            SigType::I16 => Ok(SigType::I16),
            SigType::U16 => Ok(SigType::U16),
            SigType::I32 => Ok(SigType::I32),
            SigType::U32 => Ok(SigType::U32),
            SigType::I64 => Ok(SigType::I64),
            SigType::U64 => Ok(SigType::U64),
            SigType::Double => Ok(SigType::Double),
            SigType::Str => Ok(SigType::Str),
            SigType::Path => Ok(SigType::Path),
            SigType::Sig => Ok(SigType::Sig),
            SigType::Fd => Ok(SigType::Fd),
            SigType::Variant => Ok(SigType::Variant),
            SigType::Array(element) => Ok(SigType::Array(element.clone()?)),
            SigType::Struct(fields) => Ok(SigType::Struct(fields.clone()?)),
            SigType::Entry(key, value) => Ok(SigType::Entry(key.clone()?, value.clone()?)),
        }
    }
}
