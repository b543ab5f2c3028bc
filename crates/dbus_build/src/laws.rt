//! Laws of parts. Each function's contract is a law; it does nothing when it runs.
#![tactic(auto)]

ghost use Rattle.dbus_build.specs.BuildFaults.{KeptParts};

use std::alloc::Allocator;

/// No case of [`BuildFault`](crate::BuildFault) holds of the parts of a message exactly if the
/// message keeps the limits.
#[tactic(auto, using(crate::proofs::SoundParts::kept_parts))]
pub fn kept_parts<A: Allocator>()
    ensures { KeptParts A }
{}
