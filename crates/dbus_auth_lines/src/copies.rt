//! Copies of lines.
#![tactic(auto)]

ghost use Rattle.std.specs.Prelude.{◌≡◌};
ghost use Rattle.dbus_auth_lines.specs.Lines.{client_command, server_command};

use crate::lines::{ClientLine, ServerLine};
use std::alloc::{AllocError, Allocator};

impl<A: Allocator + Clone> Clone for ClientLine<A> {
    ghost is_clone = { λ line copy. client_command copy ≡ client_command line };

    /// A line that says the same, in memory of its own from the same allocator.
    ///
    /// Returns `AllocError` if an allocation failed, and nothing of the copy is left then.
    #[tactic(auto, using(crate::proofs::Spaces::bytes_copied))]
    fn clone(&self) -> Result<ClientLine<A>, AllocError> {
        match self {
            ClientLine::Auth => Ok(ClientLine::Auth),
            ClientLine::AuthBy { mech, response } => Ok(ClientLine::AuthBy {
                mech: mech.clone()?,
                response: response.clone()?,
            }),
            ClientLine::Cancel => Ok(ClientLine::Cancel),
            ClientLine::Begin => Ok(ClientLine::Begin),
            ClientLine::DataOf(bytes) => Ok(ClientLine::DataOf(bytes.clone()?)),
            ClientLine::Error(text) => Ok(ClientLine::Error(text.clone()?)),
            ClientLine::Negotiate => Ok(ClientLine::Negotiate),
            ClientLine::Other => Ok(ClientLine::Other),
        }
    }
}

impl<A: Allocator + Clone> Clone for ServerLine<A> {
    ghost is_clone = { λ line copy. server_command copy ≡ server_command line };

    /// A line that says the same, in memory of its own from the same allocator.
    ///
    /// Returns `AllocError` if an allocation failed, and nothing of the copy is left then.
    #[tactic(auto, using(crate::proofs::Spaces::bytes_copied, crate::proofs::Spaces::words_copied))]
    fn clone(&self) -> Result<ServerLine<A>, AllocError> {
        match self {
            ServerLine::Rejected(words) => Ok(ServerLine::Rejected(words.clone()?)),
            ServerLine::Accepted(guid) => Ok(ServerLine::Accepted(*guid)),
            ServerLine::DataOf(bytes) => Ok(ServerLine::DataOf(bytes.clone()?)),
            ServerLine::Error(text) => Ok(ServerLine::Error(text.clone()?)),
            ServerLine::Agree => Ok(ServerLine::Agree),
            ServerLine::Other => Ok(ServerLine::Other),
        }
    }
}
