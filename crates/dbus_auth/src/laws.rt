//! What holds of whole handshakes, and what holds of lines. None of these functions does anything,
//! beyond comparing: their contracts are the laws, over the definitions that the calls of the crate
//! are specified by.
//!
//! D-Bus Specification, section "Authentication Protocol".

ghost use Rattle.std.specs.Prelude.{List, ℕ, Option, ◌≡◌, ◌↔◌, IsTrue};
ghost use Rattle.std.specs.List.{AllByRecursion};
ghost use Rattle.dbus_auth.specs.Machines.{ServerMachine, ClientMachine, IsServer, IsMechanism};
ghost use Rattle.dbus_auth.specs.World.{Event, run, at_first, client_at_first, server_at_first, Handshake, run_client, run_server, IsFinished, LooksAlike, LastIsOk};
ghost use Rattle.dbus_auth.specs.Bounded.{StaysWithin, at_first_within, client_most, server_most, server_within, within};
ghost use Rattle.dbus_auth.specs.declared.bounds.Bounds.{Bounds};
ghost use Rattle.dbus_auth.specs.ClientViews.{client_action, client_mechanism};
ghost use Rattle.dbus_auth.specs.EndStepViews.{end_answer};
ghost use Rattle.dbus_auth.specs.ServerViews.{server_action};
ghost use Rattle.dbus_auth.specs.declared.end_step.Status.TheVariants as status;

use crate::client::{ClientAct, Mechanism};
use crate::end_step::EndStep;
use crate::server::ServerAct;
pub use dbus_auth_lines::laws::{first_line_law, line_meaning_law, written_line_law};
use std::alloc::Allocator;

/// The two ends agree, in whatever order they are called, in whatever pieces they get their bytes,
/// and whatever their callers send once they have begun. Of every server of `Server::new`, every
/// client of `Client::new`, told to pass descriptors or not, and every list of events it says:
///
/// - a server that has begun has a client that has begun;
/// - a client that has begun has the server's GUID, and the server waits for BEGIN or has begun;
/// - once the client has begun, both know the same of descriptors: that they agreed, if both were
///   told to pass them, and else that they did not;
/// - once the server has begun, what it has not taken of the bytes sent to it is all that the
///   client's caller sent after BEGIN; and once the client has begun, what it has not taken is all
///   that the server's caller sent;
/// - the client's end sends at most two lines for each mechanism, NEGOTIATE_UNIX_FD if it was told
///   to, and BEGIN.
///
/// The transport has to neither lose, add nor reorder bytes.
#[tactic(auto, using(crate::proofs::Handshake::handshake))]
pub fn handshake_law()
    ensures { (s : ServerMachine) (c : ClientMachine) (events : List Event) →
        IsServer s → AllByRecursion IsMechanism c.left →
        Handshake s c (run events (at_first s c)) }
{}

/// Whoever its peer is and whatever it sends, a server's end that has begun sent OK as its last
/// line other than ERROR and, if it was told to pass descriptors, AGREE_UNIX_FD; and it reports
/// that it agreed exactly if it sent AGREE_UNIX_FD after that OK. And the lines that it sends and
/// its last status do not depend on how the bytes are cut, if what a call leaves is passed again;
/// some way to cut them comes to an end.
pub fn any_peer_law()
    ensures last_ok { (s : ServerMachine) (bytes ns : List ℕ) →
        (run_server (server_at_first s) bytes ns).after.status ≡ status.Begun →
        LastIsOk s (run_server (server_at_first s) bytes ns).after.machine.agreed
        (run_server (server_at_first s) bytes ns).said }
    ensures any_cut { (s : ServerMachine) (bytes ns ms : List ℕ) →
        IsFinished (run_server (server_at_first s) bytes ns) →
        IsFinished (run_server (server_at_first s) bytes ms) →
        LooksAlike (run_server (server_at_first s) bytes ns)
        (run_server (server_at_first s) bytes ms) }
    // some way of cutting comes to an end
    ensures some_cut { (s : ServerMachine) (bytes : List ℕ) →
        (ns : List ℕ) × IsFinished (run_server (server_at_first s) bytes ns) }
{}

/// What [`handshake_law`] and [`any_peer_law`] say holds of ends with bounds too; and whoever the
/// peer of an end with bounds is and whatever it sends, the end sends few lines: a server's at most
/// 3 * `rejections` + `errors` + 2, and a client's at most 3 for each of its mechanisms, `errors`,
/// BEGIN and, if it was told to, NEGOTIATE_UNIX_FD. Once it is handed all that came, it has begun, is
/// closed, or waits for its peer, for it keeps no whole line.
pub fn bounds_law()
    ensures handshake { (s : ServerMachine) (c : ClientMachine) (server client : Option Bounds)
        (events : List Event) →
        IsServer s → AllByRecursion IsMechanism c.left →
        Handshake s c (run events (at_first_within server client s c)) }
    ensures last_ok { (left : Option Bounds) (s : ServerMachine) (bytes ns : List ℕ) →
        (run_server (server_within left s) bytes ns).after.status ≡ status.Begun →
        LastIsOk s (run_server (server_within left s) bytes ns).after.machine.agreed
        (run_server (server_within left s) bytes ns).said }
    ensures any_cut { (left : Option Bounds) (s : ServerMachine) (bytes ns ms : List ℕ) →
        IsFinished (run_server (server_within left s) bytes ns) →
        IsFinished (run_server (server_within left s) bytes ms) →
        LooksAlike (run_server (server_within left s) bytes ns)
        (run_server (server_within left s) bytes ms) }
    ensures some_cut { (left : Option Bounds) (s : ServerMachine) (bytes : List ℕ) →
        (ns : List ℕ) × IsFinished (run_server (server_within left s) bytes ns) }
    ensures server { (s : ServerMachine) (b : Bounds) (bytes ns : List ℕ) →
        StaysWithin (server_most b) (run_server (within b (server_at_first s)) bytes ns) }
    ensures client { (c : ClientMachine) (b : Bounds) (bytes ns : List ℕ) →
        StaysWithin (client_most c b) (run_client (within b (client_at_first c)) bytes ns) }
{}

/// `==` of two steps of ends: they are equal exactly if they took as many bytes, send the same
/// bytes and report the same status of the end.
pub fn equal_end_steps<A: Allocator>(a: &EndStep<A>, b: &EndStep<A>) -> bool
    ensures { IsTrue result ↔ (end_answer a.now ≡ end_answer b.now) }
{
    a == b
}

/// `==` of two mechanisms: they are equal exactly if they say the same.
pub fn equal_mechanisms<A: Allocator>(a: &Mechanism<A>, b: &Mechanism<A>) -> bool
    ensures { IsTrue result ↔ (client_mechanism a.now ≡ client_mechanism b.now) }
{
    a == b
}

/// `==` of two acts of clients: they are equal exactly if they do the same, and send lines that say
/// the same.
pub fn equal_client_acts<A: Allocator>(a: &ClientAct<A>, b: &ClientAct<A>) -> bool
    ensures { IsTrue result ↔ (client_action a.now ≡ client_action b.now) }
{
    a == b
}

/// `==` of two acts of servers: they are equal exactly if they do the same, and send lines that say
/// the same.
pub fn equal_server_acts<A: Allocator>(a: &ServerAct<A>, b: &ServerAct<A>) -> bool
    ensures { IsTrue result ↔ (server_action a.now ≡ server_action b.now) }
{
    a == b
}
