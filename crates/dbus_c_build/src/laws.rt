//! The law of what is built. The function's contract is the law; it does nothing when it runs.
#![tactic(auto)]

ghost use Rattle.dbus_c_build.specs.Building.{OneBuilt};

/// What is built of parts that a message has is that message, byte for byte. So if no fields are
/// kept, a message comes back from its parts if it has no header fields beside the known ones, in
/// the order of their codes; and each does if its own fields are kept.
#[tactic(auto, using(crate::proofs::OnlyMessage::one_built))]
pub fn one_built()
    ensures { OneBuilt }
{}
