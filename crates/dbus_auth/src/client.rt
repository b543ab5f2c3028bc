//! The client's state machine. D-Bus Specification, "Authentication Protocol", "Authentication
//! state diagrams", "Client states".

ghost use Rattle.std.specs.Prelude.{◌≡◌, true, false, IfOk, IfErr, OnErr, map, is_ok, option_map, length, drop, nat_le, None, Some};
ghost use Rattle.std.specs.List.{list_all, AllByRecursion};
ghost use Rattle.hex.specs.Hex.{IsBytes};
ghost use Rattle.dbus_auth.specs.Machines.{IsMechanism, client_step, next_of, auth_line, client_accepted, client_complains, client_waiting_for_agree, client_waiting_for_data, client_waiting_for_ok, client_waiting_for_reject};
ghost use Rattle.dbus_auth_lines.specs.Lines.{client_command, server_command};
ghost use Rattle.dbus_auth.specs.ClientViews.{client_mechanism, is_short, client_machine, fresh_client, client_action, client_at, shown_turn, shown_client, stage_after, guid_of, state_of, IsListening};
ghost use Rattle.dbus_auth.specs.declared.states.ClientState.TheVariants as now;

use crate::states::ClientState;
use dbus_auth_lines::{ClientLine, Guid, ServerLine};
use std::alloc::{AllocError, Allocator, Global};

/// A way in which a client says who it is.
#[derive(Debug, Drop)]
#[derive_where(PartialEq, Eq)]
pub enum Mechanism<A: Allocator = Global> {
    /// EXTERNAL, as the user with this number, or as the user that the transport reports.
    External(Option<u32>),
    /// ANONYMOUS, with a trace of at most 255 bytes.
    Anonymous(Vec<u8, A>),
}

/// What a client does.
#[derive(Debug, Drop)]
#[derive_where(PartialEq, Eq)]
pub enum ClientAct<A: Allocator = Global> {
    /// It sends this line.
    Send(ClientLine<A>),
    /// It sends BEGIN. The handshake succeeded, and messages begin.
    Begin,
    /// The handshake failed. Nothing is sent, and the connection is to be closed.
    Disconnect,
}

/// The client's state, with the GUID of the server that accepted it, and whether that server sent
/// AGREE_UNIX_FD.
#[derive(Clone, Copy, Drop)]
pub enum ClientStage {
    Fresh,
    WaitingForData,
    WaitingForOk,
    WaitingForAgree(Guid),
    WaitingForReject,
    Begun(Guid, bool),
    Closed,
}

/// What a client is about to do: its act, and its state then.
#[derive(Drop)]
pub struct ClientTurn<A: Allocator> {
    pub act: ClientAct<A>,
    pub stage: ClientStage,
    /// The number of mechanisms that were tried then.
    pub tried: usize,
}

/// The client's state machine.
///
/// "Next" is: it asks for its next mechanism by AUTH, and without one left it is closed. EXTERNAL
/// as a user sends the user in decimal and waits for OK; EXTERNAL without one sends no response and
/// waits for DATA; ANONYMOUS sends its trace and waits for OK. It ignores the words of REJECTED.
/// "Accepted" is: it sends BEGIN, and has begun with the server's GUID; or, if it asks for
/// descriptors, it sends NEGOTIATE_UNIX_FD and waits for AGREE_UNIX_FD.
///
/// | state | line | it does |
/// | --- | --- | --- |
/// | waiting for DATA | DATA | sends DATA without bytes, waits for OK |
/// | | OK | accepted |
/// | | REJECTED | next |
/// | | ERROR | sends CANCEL, waits for REJECTED |
/// | | anything else | sends ERROR, stays |
/// | waiting for OK | OK | accepted |
/// | | REJECTED | next |
/// | | DATA; ERROR | sends CANCEL, waits for REJECTED |
/// | | anything else | sends ERROR, stays |
/// | waiting for AGREE_UNIX_FD | AGREE_UNIX_FD | sends BEGIN, has begun, and both agreed |
/// | | ERROR | sends BEGIN, has begun |
/// | | anything else | is closed |
/// | waiting for REJECTED | REJECTED | next |
/// | | anything else | is closed |
///
/// D-Bus Specification, "Client states". The answer to DATA is a choice of this profile.
#[derive(Drop)]
pub struct Client<A: Allocator = Global> {
    stage: ClientStage,
    descriptors: bool,
    mechanisms: Vec<Mechanism<A>, A>,
    tried: usize,
}

impl<A: Allocator + Copy> Client<A> {
    /// A client that has not started. It tries the mechanisms in their order, and does not ask for
    /// Unix file descriptors.
    ///
    /// If a trace has over 255 bytes, the error returns them.
    pub fn new(mechanisms: Vec<Mechanism<A>, A>) -> Result<Self, Vec<Mechanism<A>, A>>
        ensures made { IfOk result (λ c. client_machine c ≡ fresh_client mechanisms.items) }
        // its mechanisms are those of the laws
        ensures client { IfOk result (λ c. AllByRecursion IsMechanism (client_machine c).left) }
        ensures back { IfErr result (λ m. m ≡ mechanisms) }
        ensures which { is_ok result ≡ list_all is_short mechanisms.items }
    {
        if !all_short(&mechanisms) {
            return Err(mechanisms);
        }
        Ok(Client {
            stage: ClientStage::Fresh,
            descriptors: false,
            mechanisms,
            tried: 0,
        })
    }

    /// The same client, which passes Unix file descriptors or not. If it does, it sends
    /// NEGOTIATE_UNIX_FD once a server has accepted it: for a transport that passes them, as a Unix
    /// socket does. D-Bus Specification, "NEGOTIATE_UNIX_FD Command".
    pub fn with_descriptors(self, descriptors: bool) -> Self
        ensures { client_machine result ≡
            record (client_machine self) { descriptors = descriptors } }
    {
        Client {
            descriptors,
            ..self
        }
    }

    /// The GUID of the server, once it has accepted the client.
    pub fn guid(&self) -> Option<Guid>
        ensures { option_map (λ g. g.0) result ≡ (client_machine self.now).guid }
    {
        match self.stage {
            ClientStage::WaitingForAgree(guid) | ClientStage::Begun(guid, _) => Some(guid),
            _ => None,
        }
    }

    /// Whether the client has begun, and the server sent AGREE_UNIX_FD before: messages of both
    /// sides may then come with Unix file descriptors.
    pub fn agreed(&self) -> bool
        ensures { result ≡ (client_machine self.now).agreed }
    {
        match self.stage {
            ClientStage::Begun(_, agreed) => agreed,
            _ => false,
        }
    }

    /// The client's state.
    pub fn state(&self) -> ClientState
        ensures { result ≡ (client_machine self.now).state }
    {
        match self.stage {
            ClientStage::Fresh => ClientState::Fresh,
            ClientStage::WaitingForData => ClientState::WaitingForData,
            ClientStage::WaitingForOk => ClientState::WaitingForOk,
            ClientStage::WaitingForAgree(_) => ClientState::WaitingForAgree,
            ClientStage::WaitingForReject => ClientState::WaitingForReject,
            ClientStage::Begun(_, _) => ClientState::Begun,
            ClientStage::Closed => ClientState::Closed,
        }
    }

    /// The line that asks for the first mechanism, or `Disconnect` if there is none. The client
    /// must not have started.
    ///
    /// Returns `AllocError` if an allocation failed, and the client is unchanged then.
    pub fn start(&mut self, alloc: A) -> Result<ClientAct<A>, AllocError>
        requires { (client_machine self.old).state ≡ now.Fresh }
        ensures row { IfOk result (λ act.
            shown_client act self.new ≡ next_of (client_machine self.old)) }
        ensures err { OnErr result (client_machine self.new ≡ client_machine self.old) }
    {
        let turn = self.next_mechanism(alloc)?;
        let ClientTurn { act, stage, tried } = turn;
        self.go_to(stage, tried);
        Ok(act)
    }

    /// What the client does on a line, as the one row of its table says, and the state after it.
    /// The state has to be one of the waiting ones.
    ///
    /// Returns `AllocError` if an allocation failed. The line is lost then, and the client
    /// unchanged.
    pub fn receive(&mut self, alloc: A, line: ServerLine<A>) -> Result<ClientAct<A>, AllocError>
        requires { IsListening (client_machine self.old).state }
        ensures row { IfOk result (λ act.
            shown_client act self.new ≡
            client_step (client_machine self.old) (server_command line)) }
        ensures err { OnErr result (client_machine self.new ≡ client_machine self.old) }
    {
        let turn = self.step(alloc, &line)?;
        let ClientTurn { act, stage, tried } = turn;
        self.go_to(stage, tried);
        Ok(act)
    }

    /// Goes to a stage, with this number of mechanisms tried.
    pub(crate) fn go_to(&mut self, stage: ClientStage, tried: usize)
        ensures machine { client_machine self.new ≡ client_at self.old stage tried }
        ensures same { self.new.mechanisms ≡ self.old.mechanisms }
    {
        self.stage = stage;
        self.tried = tried;
    }

    /// The next mechanism, or the end.
    pub(crate) fn next_mechanism(&self, alloc: A) -> Result<ClientTurn<A>, AllocError>
        ensures { IfOk result (λ turn.
            shown_turn turn self.now ≡ next_of (client_machine self.now)) }
    {
        if self.tried >= self.mechanisms.len() {
            return Ok(self.stays_with(ClientAct::Disconnect, ClientStage::Closed));
        }
        let mechanism = &self.mechanisms[self.tried];
        Ok(ClientTurn {
            act: ClientAct::Send(auth_line_of(alloc, mechanism)?),
            stage: stage_of(mechanism),
            tried: self.tried + 1,
        })
    }

    /// The answer and the next state, as the table's row says. Nothing is changed.
    #[tactic(auto, unfolding(crate::specs::Machines::client_step))]
    pub(crate) fn step(&self, alloc: A, line: &ServerLine<A>) -> Result<ClientTurn<A>, AllocError>
        ensures { IfOk result (λ turn.
            shown_turn turn self.now ≡
            client_step (client_machine self.now) (server_command line.now)) }
    {
        match self.stage {
            ClientStage::WaitingForData => self.on_data(alloc, line),
            ClientStage::WaitingForOk => self.on_ok(alloc, line),
            ClientStage::WaitingForAgree(guid) => Ok(self.on_agree(line, guid)),
            ClientStage::WaitingForReject => self.on_reject(alloc, line),
            ClientStage::Fresh | ClientStage::Begun(_, _) | ClientStage::Closed => {
                Ok(self.stays_with(ClientAct::Disconnect, self.stage))
            }
        }
    }

    /// An act that tries no further mechanism.
    fn stays_with(&self, act: ClientAct<A>, stage: ClientStage) -> ClientTurn<A>
        ensures act { result.act ≡ act }
        ensures stage { result.stage ≡ stage }
        ensures tried { result.tried ≡ self.now.tried }
    {
        ClientTurn {
            act,
            stage,
            tried: self.tried,
        }
    }

    /// The server accepted the client.
    fn accepted_by(&self, guid: Guid) -> ClientTurn<A>
        ensures { shown_turn result self.now ≡ client_accepted (client_machine self.now) guid.0 }
    {
        if self.descriptors {
            let asks = ClientAct::Send(ClientLine::Negotiate);
            self.stays_with(asks, ClientStage::WaitingForAgree(guid))
        } else {
            self.stays_with(ClientAct::Begin, ClientStage::Begun(guid, false))
        }
    }

    /// The line makes no sense in this state: ERROR, and the state stays.
    fn complain(&self, alloc: A) -> ClientTurn<A>
        ensures { shown_turn result self.now ≡ client_complains (client_machine self.now) }
    {
        let error = ClientLine::Error(Vec::new(alloc));
        self.stays_with(ClientAct::Send(error), self.stage)
    }

    /// What the client does on a line while it waits for DATA.
    fn on_data(&self, alloc: A, line: &ServerLine<A>) -> Result<ClientTurn<A>, AllocError>
        ensures { IfOk result (λ turn.
            shown_turn turn self.now ≡
            client_waiting_for_data (client_machine self.now) (server_command line.now)) }
    {
        match line {
            ServerLine::DataOf(_) => {
                let data = ClientLine::DataOf(Vec::new(alloc));
                Ok(self.stays_with(ClientAct::Send(data), ClientStage::WaitingForOk))
            }
            ServerLine::Accepted(guid) => Ok(self.accepted_by(*guid)),
            ServerLine::Rejected(_) => self.next_mechanism(alloc),
            ServerLine::Error(_) => Ok(self.stays_with(
                ClientAct::Send(ClientLine::Cancel),
                ClientStage::WaitingForReject,
            )),
            ServerLine::Agree | ServerLine::Other => Ok(self.complain(alloc)),
        }
    }

    /// The same while it waits for OK.
    fn on_ok(&self, alloc: A, line: &ServerLine<A>) -> Result<ClientTurn<A>, AllocError>
        ensures { IfOk result (λ turn.
            shown_turn turn self.now ≡
            client_waiting_for_ok (client_machine self.now) (server_command line.now)) }
    {
        match line {
            ServerLine::Accepted(guid) => Ok(self.accepted_by(*guid)),
            ServerLine::Rejected(_) => self.next_mechanism(alloc),
            ServerLine::DataOf(_) | ServerLine::Error(_) => Ok(self.stays_with(
                ClientAct::Send(ClientLine::Cancel),
                ClientStage::WaitingForReject,
            )),
            ServerLine::Agree | ServerLine::Other => Ok(self.complain(alloc)),
        }
    }

    /// The same while it waits for AGREE_UNIX_FD of the server with this GUID.
    fn on_agree(&self, line: &ServerLine<A>, guid: Guid) -> ClientTurn<A>
        requires { (client_machine self.now).guid ≡ Some guid.0 }
        ensures { shown_turn result self.now ≡
            client_waiting_for_agree (client_machine self.now) (server_command line.now) }
    {
        match line {
            ServerLine::Agree => self.stays_with(ClientAct::Begin, ClientStage::Begun(guid, true)),
            ServerLine::Error(_) => {
                self.stays_with(ClientAct::Begin, ClientStage::Begun(guid, false))
            }
            ServerLine::Rejected(_)
            | ServerLine::DataOf(_)
            | ServerLine::Accepted(_)
            | ServerLine::Other => self.stays_with(ClientAct::Disconnect, ClientStage::Closed),
        }
    }

    /// The same while it waits for REJECTED, after CANCEL.
    fn on_reject(&self, alloc: A, line: &ServerLine<A>) -> Result<ClientTurn<A>, AllocError>
        ensures { IfOk result (λ turn.
            shown_turn turn self.now ≡
            client_waiting_for_reject (client_machine self.now) (server_command line.now)) }
    {
        match line {
            ServerLine::Rejected(_) => self.next_mechanism(alloc),
            ServerLine::Accepted(_)
            | ServerLine::DataOf(_)
            | ServerLine::Error(_)
            | ServerLine::Agree
            | ServerLine::Other => {
                Ok(self.stays_with(ClientAct::Disconnect, ClientStage::Closed))
            }
        }
    }
}

/// The line that asks for a mechanism.
fn auth_line_of<A: Allocator + Copy>(
    alloc: A,
    mechanism: &Mechanism<A>,
) -> Result<ClientLine<A>, AllocError>
    ensures { IfOk result (λ line. client_command line ≡
        auth_line (client_mechanism mechanism.now)) }
{
    match mechanism {
        Mechanism::External(None) => Ok(ClientLine::AuthBy {
            mech: Vec::from_slice(alloc, b"EXTERNAL")?,
            response: Vec::new(alloc),
        }),
        Mechanism::External(Some(n)) => {
            let text = format!(in alloc; "{n}")?;
            Ok(ClientLine::AuthBy {
                mech: Vec::from_slice(alloc, b"EXTERNAL")?,
                response: Vec::from_slice(alloc, text.as_bytes())?,
            })
        }
        Mechanism::Anonymous(trace) => Ok(ClientLine::AuthBy {
            mech: Vec::from_slice(alloc, b"ANONYMOUS")?,
            response: Vec::from_slice(alloc, trace)?,
        }),
    }
}

/// The stage in which a client waits for the answer to a mechanism.
fn stage_of<A: Allocator>(mechanism: &Mechanism<A>) -> ClientStage
    ensures { result ≡ stage_after (client_mechanism mechanism.now) }
{
    match mechanism {
        Mechanism::External(None) => ClientStage::WaitingForData,
        Mechanism::External(Some(_)) => ClientStage::WaitingForOk,
        Mechanism::Anonymous(_) => ClientStage::WaitingForOk,
    }
}

/// Whether a client takes the mechanism.
fn is_trace_short<A: Allocator>(mechanism: &Mechanism<A>) -> bool
    ensures short { result ≡ is_short mechanism.now }
    ensures fits { result ≡ true → IsMechanism (client_mechanism mechanism.now) }
{
    match mechanism {
        Mechanism::External(None) => true,
        Mechanism::External(Some(user)) => {
            let _user = *user;
            true
        }
        Mechanism::Anonymous(trace) => is_short_text(trace),
    }
}

/// Whether a trace of ANONYMOUS has at most 255 bytes.
fn is_short_text(trace: &[u8]) -> bool
    ensures short { result ≡ nat_le (length trace.now) 255 }
    ensures bytes { IsBytes trace.now }
{
    trace.len() <= 255
}

/// Whether the traces of all mechanisms are so short.
fn all_short<A: Allocator>(mechanisms: &[Mechanism<A>]) -> bool
    ensures short { result ≡ list_all is_short mechanisms.now }
    ensures fits { result ≡ true →
        AllByRecursion IsMechanism (map client_mechanism mechanisms.now) }
{
    for mechanism in mechanisms {
        if !is_trace_short(mechanism) {
            return false;
        }
    }
    true
}
