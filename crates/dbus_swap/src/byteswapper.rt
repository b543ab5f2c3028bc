//! A copy of a message's bytes, which is byteswapped.
#![tactic(auto)]

/// Byteswaps the numbers of what it visits in a copy of the message's bytes.
#[derive(Drop)]
pub(crate) struct Byteswapper<'a> {
    /// The copy. Its bytes are at the offsets that they have in the message.
    pub(crate) out: &'a mut [u8],
}
