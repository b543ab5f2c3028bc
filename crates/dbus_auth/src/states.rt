//! The states of both state machines.
//! D-Bus Specification, "Authentication Protocol", "Authentication state diagrams".

/// The state of a server's state machine.
#[derive(Clone, Copy, PartialEq, Eq, Debug, Drop)]
pub enum ServerState {
    /// It waits for AUTH. This is the first state.
    WaitingForAuth,
    /// It asked for the identity by DATA, and waits for it.
    WaitingForData,
    /// It sent OK, and waits for BEGIN.
    WaitingForBegin,
    /// BEGIN came: what follows are messages.
    Begun,
    /// The handshake failed.
    Closed,
}

/// The state of a client's state machine.
#[derive(Clone, Copy, PartialEq, Eq, Debug, Drop)]
pub enum ClientState {
    /// It has not started.
    Fresh,
    /// It sent AUTH without a response, and waits for DATA.
    WaitingForData,
    /// It said who it is, and waits for OK.
    WaitingForOk,
    /// It was accepted, sent NEGOTIATE_UNIX_FD, and waits for AGREE_UNIX_FD.
    WaitingForAgree,
    /// It sent CANCEL, and waits for REJECTED.
    WaitingForReject,
    /// It sent BEGIN: what follows are messages.
    Begun,
    /// The handshake failed.
    Closed,
}
