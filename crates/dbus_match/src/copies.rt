//! Copies of owners.
#![tactic(auto)]

ghost use Rattle.std.specs.Prelude.{◌≡◌};
ghost use Rattle.dbus_match.specs.Matching.{ownership};

use crate::owner::Owner;
use std::alloc::{AllocError, Allocator};

impl<A: Allocator + Clone> Clone for Owner<A> {
    ghost is_clone = { λ owner copy. ownership copy ≡ ownership owner };

    /// An owner of the same names, in memory of its own from the same allocator.
    ///
    /// Returns `AllocError` if an allocation failed, and nothing of the copy is left then.
    fn clone(&self) -> Result<Owner<A>, AllocError> {
        Ok(Owner {
            name: self.name.clone()?,
            unique: self.unique.clone()?,
        })
    }
}
