//! The server's state machine. D-Bus Specification, "Authentication Protocol", "Authentication
//! state diagrams", "Server states".

ghost use Rattle.std.specs.Prelude.{◌≡◌, true, false, ◌++◌, ◌∷◌, [], ℕ, List, IfOk, OnOk, OnErr, map, codes, bytes_eq, ◌&&◌, if◌then◌else◌};
ghost use Rattle.dbus_auth.specs.declared.states.ServerState.TheVariants as at;
ghost use Rattle.dbus_auth.specs.Machines.{ServerMachine, IsServer, server_step, is_user, rejects, accepts, complains, negotiates, is_empty, offers_external, server_step_at, waiting_for_auth, waiting_for_data, waiting_for_begin, by_mechanism};
ghost use Rattle.dbus_auth_lines.specs.Lines.{client_command, server_command};
ghost use Rattle.dbus_auth.specs.ServerViews.{server_machine, server_action, server_at, shown_step, IsWaiting};

use crate::states::ServerState;
use dbus_auth_lines::{ClientLine, Guid, ServerLine};
use std::alloc::{AllocError, Allocator, Global};

/// What a server does on a line.
#[derive(Debug, Drop)]
#[derive_where(PartialEq, Eq)]
pub enum ServerAct<A: Allocator = Global> {
    /// It sends this line.
    Send(ServerLine<A>),
    /// The handshake succeeded, and messages begin. Nothing is sent.
    Begin,
    /// The handshake failed. Nothing is sent, and the connection is to be closed.
    Disconnect,
}

/// The server's state, with whether it sent AGREE_UNIX_FD once it sent OK.
#[derive(Clone, Copy, Drop)]
pub enum ServerStage {
    WaitingForAuth,
    WaitingForData,
    WaitingForBegin(bool),
    Begun(bool),
    Closed,
}

/// The server's state machine.
///
/// It offers EXTERNAL if it has a user, and ANONYMOUS if that is allowed, in this order; the
/// lines of REJECTED list them. Its lines of ERROR have no text.
///
/// | state | line | it sends | next state |
/// | --- | --- | --- | --- |
/// | waiting for AUTH | AUTH EXTERNAL, offered, no response | DATA | waiting for DATA |
/// | | AUTH EXTERNAL, offered, the user in decimal | OK | waiting for BEGIN |
/// | | AUTH ANONYMOUS, offered | OK | waiting for BEGIN |
/// | | any other AUTH; ERROR | REJECTED | the same |
/// | | BEGIN | nothing | closed |
/// | | anything else | ERROR | the same |
/// | waiting for DATA | DATA, empty or the user in decimal | OK | waiting for BEGIN |
/// | | any other DATA; CANCEL; ERROR | REJECTED | waiting for AUTH |
/// | | BEGIN | nothing | closed |
/// | | anything else | ERROR | the same |
/// | waiting for BEGIN | BEGIN | nothing | begun |
/// | | CANCEL; ERROR | REJECTED | waiting for AUTH |
/// | | NEGOTIATE_UNIX_FD, if it passes descriptors | AGREE_UNIX_FD | the same |
/// | | anything else | ERROR | the same |
///
/// D-Bus Specification, "Server states". That EXTERNAL without a response is asked for DATA is a
/// choice of this profile.
#[derive(Drop)]
pub struct Server {
    guid: Guid,
    user: Option<u32>,
    anonymous: bool,
    descriptors: bool,
    stage: ServerStage,
}

impl Server {
    /// A server in its first state.
    ///
    /// `user` is the client's user **as the transport reports it** (`SO_PEERCRED` of a Unix
    /// socket): EXTERNAL is offered if there is one, and lets in who names it in decimal or names
    /// nobody. `anonymous` says whether ANONYMOUS is offered, which lets in everybody. It passes no
    /// Unix file descriptors.
    pub fn new(guid: Guid, user: Option<u32>, anonymous: bool) -> Self
        ensures machine { server_machine result ≡
            record {
              guid = guid.0;
              user = user;
              anonymous = anonymous;
              descriptors = false;
              state = at.WaitingForAuth;
              agreed = false;
            } }
        // it is a server of the laws
        ensures server { IsServer (server_machine result) }
    {
        Server {
            guid,
            user,
            anonymous,
            descriptors: false,
            stage: ServerStage::WaitingForAuth,
        }
    }

    /// The same server, which passes Unix file descriptors or not. If it does, it answers
    /// NEGOTIATE_UNIX_FD by AGREE_UNIX_FD once it has sent OK: for a transport that passes them, as
    /// a Unix socket does. D-Bus Specification, "NEGOTIATE_UNIX_FD Command".
    pub fn with_descriptors(self, descriptors: bool) -> Self
        ensures { server_machine result ≡
            record (server_machine self) { descriptors = descriptors } }
    {
        Server {
            descriptors,
            ..self
        }
    }

    /// The server's state.
    pub fn state(&self) -> ServerState
        ensures { result ≡ (server_machine self.now).state }
    {
        match self.stage {
            ServerStage::WaitingForAuth => ServerState::WaitingForAuth,
            ServerStage::WaitingForData => ServerState::WaitingForData,
            ServerStage::WaitingForBegin(_) => ServerState::WaitingForBegin,
            ServerStage::Begun(_) => ServerState::Begun,
            ServerStage::Closed => ServerState::Closed,
        }
    }

    /// Whether the server sent AGREE_UNIX_FD to the client that it accepted: messages of both sides
    /// may then come with Unix file descriptors.
    pub fn agreed(&self) -> bool
        ensures { result ≡ (server_machine self.now).agreed }
    {
        match self.stage {
            ServerStage::WaitingForBegin(agreed) | ServerStage::Begun(agreed) => agreed,
            _ => false,
        }
    }

    /// What the server does on a line, as the one row of its table says, and the state after it.
    /// The state has to be one of the waiting ones.
    ///
    /// Returns `AllocError` if an allocation failed. The line is lost then, and the server
    /// unchanged.
    pub fn receive<A: Allocator + Copy>(
        &mut self,
        alloc: A,
        line: ClientLine<A>,
    ) -> Result<ServerAct<A>, AllocError>
        requires { IsWaiting (server_machine self.old).state }
        ensures action { IfOk result (λ act.
            server_action act ≡
            (server_step (server_machine self.old) (client_command line)).action) }
        ensures next { OnOk result
            (server_machine self.new ≡
            (server_step (server_machine self.old) (client_command line)).next) }
        ensures err { OnErr result (server_machine self.new ≡ server_machine self.old) }
    {
        let (act, next) = self.step(alloc, &line)?;
        self.go_to(next);
        Ok(act)
    }

    /// The answer and the next state, as the table's row says. Nothing is changed.
    #[tactic(auto, unfolding(crate::specs::Machines::server_step))]
    pub(crate) fn step<A: Allocator + Copy>(
        &self,
        alloc: A,
        line: &ClientLine<A>,
    ) -> Result<(ServerAct<A>, ServerStage), AllocError>
        ensures { IfOk result (λ t.
            shown_step self.now t.0 t.1 ≡ server_step (server_machine self.now) (client_command line.now)) }
    {
        match self.stage {
            ServerStage::WaitingForAuth => self.on_auth(alloc, line),
            ServerStage::WaitingForData => self.on_data(alloc, line),
            ServerStage::WaitingForBegin(agreed) => self.on_begin(alloc, line, agreed),
            ServerStage::Begun(_) | ServerStage::Closed => {
                Ok((ServerAct::Disconnect, self.stage))
            }
        }
    }

    /// Goes to a stage.
    pub(crate) fn go_to(&mut self, stage: ServerStage)
        ensures { server_machine self.new ≡ server_at self.old stage }
    {
        self.stage = stage;
    }

    /// What the server does on a line while it waits for AUTH, and the state after it.
    fn on_auth<A: Allocator + Copy>(
        &self,
        alloc: A,
        line: &ClientLine<A>,
    ) -> Result<(ServerAct<A>, ServerStage), AllocError>
        ensures { IfOk result (λ t.
            shown_step self.now t.0 t.1 ≡
            waiting_for_auth (server_machine self.now) (client_command line.now)) }
    {
        match line {
            ClientLine::AuthBy { mech, response } => self.by_mechanism(alloc, mech, response),
            ClientLine::Auth | ClientLine::Error(_) => self.reject(alloc),
            ClientLine::Begin => Ok((ServerAct::Disconnect, ServerStage::Closed)),
            ClientLine::Cancel
            | ClientLine::DataOf(_)
            | ClientLine::Negotiate
            | ClientLine::Other => Ok(self.complain(alloc)),
        }
    }

    /// The same while it waits for DATA.
    fn on_data<A: Allocator + Copy>(
        &self,
        alloc: A,
        line: &ClientLine<A>,
    ) -> Result<(ServerAct<A>, ServerStage), AllocError>
        ensures { IfOk result (λ t.
            shown_step self.now t.0 t.1 ≡
            waiting_for_data (server_machine self.now) (client_command line.now)) }
    {
        match line {
            ClientLine::DataOf(bytes) => {
                if bytes.is_empty() || is_user_text(alloc, self.user, bytes)? {
                    Ok(self.accept())
                } else {
                    self.reject(alloc)
                }
            }
            ClientLine::Cancel | ClientLine::Error(_) => self.reject(alloc),
            ClientLine::Begin => Ok((ServerAct::Disconnect, ServerStage::Closed)),
            ClientLine::Auth
            | ClientLine::AuthBy { .. }
            | ClientLine::Negotiate
            | ClientLine::Other => Ok(self.complain(alloc)),
        }
    }

    /// The same while it waits for BEGIN, and has agreed or not.
    fn on_begin<A: Allocator + Copy>(
        &self,
        alloc: A,
        line: &ClientLine<A>,
        agreed: bool,
    ) -> Result<(ServerAct<A>, ServerStage), AllocError>
        requires { agreed ≡ (server_machine self.now).agreed }
        ensures { IfOk result (λ t.
            shown_step self.now t.0 t.1 ≡
            waiting_for_begin (server_machine self.now) (client_command line.now)) }
    {
        match line {
            ClientLine::Begin => Ok((ServerAct::Begin, ServerStage::Begun(agreed))),
            ClientLine::Cancel | ClientLine::Error(_) => self.reject(alloc),
            ClientLine::Negotiate => Ok(self.negotiate(alloc)),
            ClientLine::Auth
            | ClientLine::AuthBy { .. }
            | ClientLine::DataOf(_)
            | ClientLine::Other => Ok(self.complain(alloc)),
        }
    }

    /// The same on AUTH with a mechanism and a response, which is empty if the line has none.
    fn by_mechanism<A: Allocator + Copy>(
        &self,
        alloc: A,
        mech: &[u8],
        response: &[u8],
    ) -> Result<(ServerAct<A>, ServerStage), AllocError>
        ensures { IfOk result (λ t.
            shown_step self.now t.0 t.1 ≡ by_mechanism (server_machine self.now) mech.now response.now) }
    {
        let wants_data = self.wants_data(mech, response);
        let knows_user = self.knows_user(alloc, mech, response)?;
        if wants_data {
            let nothing = ServerLine::DataOf(Vec::new(alloc));
            Ok((ServerAct::Send(nothing), ServerStage::WaitingForData))
        } else if knows_user {
            Ok(self.accept())
        } else if self.lets_in(mech) {
            Ok(self.accept())
        } else {
            self.reject(alloc)
        }
    }

    /// Whether the mechanism is EXTERNAL, it is offered, and its response has still to come.
    fn wants_data(&self, mech: &[u8], response: &[u8]) -> bool
        ensures { result ≡
            (bytes_eq mech.now (codes "EXTERNAL") && offers_external self.now.user &&
            is_empty response.now) }
    {
        mech == b"EXTERNAL".as_slice() && self.user.is_some() && response.is_empty()
    }

    /// Whether the mechanism is EXTERNAL, and the response names the user in decimal.
    fn knows_user<A: Allocator + Copy>(
        &self,
        alloc: A,
        mech: &[u8],
        response: &[u8],
    ) -> Result<bool, AllocError>
        ensures { IfOk result (λ b.
            b ≡ (bytes_eq mech.now (codes "EXTERNAL") && is_user self.now.user response.now)) }
    {
        if mech == b"EXTERNAL".as_slice() {
            is_user_text(alloc, self.user, response)
        } else {
            Ok(false)
        }
    }

    /// Whether the mechanism is ANONYMOUS, and it is offered.
    fn lets_in(&self, mech: &[u8]) -> bool
        ensures { result ≡ (bytes_eq mech.now (codes "ANONYMOUS") && self.now.anonymous) }
    {
        mech == b"ANONYMOUS".as_slice() && self.anonymous
    }

    /// The client is let in: OK.
    fn accept<A: Allocator>(&self) -> (ServerAct<A>, ServerStage)
        ensures { shown_step self.now result.0 result.1 ≡ accepts (server_machine self.now) }
    {
        (
            ServerAct::Send(ServerLine::Accepted(self.guid)),
            ServerStage::WaitingForBegin(false),
        )
    }

    /// The client is not let in: REJECTED, with the mechanisms that are offered.
    fn reject<A: Allocator + Copy>(
        &self,
        alloc: A,
    ) -> Result<(ServerAct<A>, ServerStage), AllocError>
        ensures { IfOk result (λ t. shown_step self.now t.0 t.1 ≡ rejects (server_machine self.now)) }
    {
        let words = offered(alloc, self.user.is_some(), self.anonymous)?;
        Ok((
            ServerAct::Send(ServerLine::Rejected(words)),
            ServerStage::WaitingForAuth,
        ))
    }

    /// The client, which was let in, asks for descriptors.
    fn negotiate<A: Allocator>(&self, alloc: A) -> (ServerAct<A>, ServerStage)
        ensures { shown_step self.now result.0 result.1 ≡ negotiates (server_machine self.now) }
    {
        if self.descriptors {
            (
                ServerAct::Send(ServerLine::Agree),
                ServerStage::WaitingForBegin(true),
            )
        } else {
            self.complain(alloc)
        }
    }

    /// The line makes no sense in this state: ERROR, and the state stays.
    fn complain<A: Allocator>(&self, alloc: A) -> (ServerAct<A>, ServerStage)
        ensures { shown_step self.now result.0 result.1 ≡ complains (server_machine self.now) }
    {
        (
            ServerAct::Send(ServerLine::Error(Vec::new(alloc))),
            self.stage,
        )
    }
}

/// Whether the response is the decimal text of the user.
fn is_user_text<A: Allocator + Copy>(
    alloc: A,
    user: Option<u32>,
    response: &[u8],
) -> Result<bool, AllocError>
    ensures { IfOk result (λ b. b ≡ is_user user response.now) }
{
    match user {
        None => Ok(false),
        Some(n) => {
            let text = format!(in alloc; "{n}")?;
            Ok(response == text.as_bytes())
        }
    }
}

/// The words of a REJECTED line.
fn offered<A: Allocator + Copy>(
    alloc: A,
    external: bool,
    anonymous: bool,
) -> Result<Vec<Vec<u8, A>, A>, AllocError>
    ensures { IfOk result (λ ws.
        map (λ w. w.items) ws.items ≡
        (if external then codes "EXTERNAL" ∷ [] else []) ++
        (if anonymous then codes "ANONYMOUS" ∷ [] else [])) }
{
    let mut words = Vec::new(alloc);
    if external {
        words.push(Vec::from_slice(alloc, b"EXTERNAL")?)?;
    }
    if anonymous {
        words.push(Vec::from_slice(alloc, b"ANONYMOUS")?)?;
    }
    Ok(words)
}
