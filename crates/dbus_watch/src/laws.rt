//! What holds of a watch. None of these functions does anything: their contracts are the laws, over
//! the definitions that the calls of the crate are specified by.
//!
//! D-Bus Specification, section "Authentication Protocol".

ghost use Rattle.std.specs.Prelude.{List, Ok, [], length, take, true, ℕ, ◌≡◌, ◌≢◌, ◌↔◌};
ghost use Rattle.dbus_auth.specs.Machines.{Begins, Sends, ServerMachine, server_step};
ghost use Rattle.dbus_auth.specs.ServerViews.{IsWaiting};
ghost use Rattle.dbus_auth.specs.declared.states.ServerState.TheVariants as at;
ghost use Rattle.dbus_auth_lines.specs.ClientCommands.{ClientCommand};
ghost use Rattle.dbus_auth_lines.specs.ClientCommands as client;
ghost use Rattle.dbus_auth_lines.specs.Lines.{client_meaning};
ghost use Rattle.dbus_auth_lines.specs.ServerCommands.{ServerCommand};
ghost use Rattle.dbus_auth_lines.specs.WrittenLines.{IsExactClientLine};
ghost use Rattle.dbus_watch.specs.Watches.{AnswersAll, BeginsAtBegin, IsReader, PassesAll, Reader, Seen, WatchState, answered, at_first, client_lines, passed_to_server, passes, server_lines, settles};
ghost use Rattle.dbus_watch.specs.Watches as reading;
ghost use Rattle.dbus_watch.specs.declared.watch.Passage.TheVariants as passage;

/// Each server begins messages where a watch says that they begin, whatever else it makes of lines
/// that are not exact, and in whatever order the lines of both sides come to the watch.
///
/// It is asked of the server alone that no exact line but BEGIN begins messages, and that it reads
/// no line after BEGIN once its answers say that it has accepted the client. If the lines of the
/// server that the watch passed are its answers to the first lines of the client, and the watch
/// then says that BEGIN begins messages, the server has answered all lines of the client before
/// BEGIN, so it began at none of them, and it reads no line after BEGIN. And it begins messages at
/// none of the lines that the watch passes as lines.
pub fn watch_law()
    ensures there { (reads : Reader) (seen : List Seen) (last : WatchState) → IsReader reads →
        PassesAll at_first seen last →
        AnswersAll reads [] (take (length (server_lines seen)) (client_lines seen)) (server_lines seen) →
        (passed_to_server last client.Begin).answer ≡ Ok passage.Begins →
        BeginsAtBegin reads (client_lines seen) (server_lines seen) }
    ensures nowhere_else { (reads : Reader) (before : List (List ℕ)) (line : List ℕ) (w next : WatchState) →
        IsReader reads → IsExactClientLine line →
        passed_to_server w (client_meaning line) ≡ passes next → reads before line ≢ reading.Begins }
{}

/// The server of the specification's table, `dbus_auth::Server`, is in the state that its answer
/// tells, answers NEGOTIATE_UNIX_FD by AGREE_UNIX_FD or ERROR, and begins messages at BEGIN alone,
/// if it has accepted the client.
pub fn server_law()
    ensures answers { (s : ServerMachine) (c : ClientCommand) (said : ServerCommand) →
        IsWaiting s.state → (server_step s c).action ≡ Sends said →
        (server_step s c).next.state ≡ answered said s.state }
    ensures settles { (s : ServerMachine) (said : ServerCommand) →
        (server_step s client.Negotiate).action ≡ Sends said → settles said ≡ true }
    ensures begins { (s : ServerMachine) (c : ClientCommand) →
        ((server_step s c).action ≡ Begins) ↔ ((c ≡ client.Begin) × (s.state ≡ at.WaitingForBegin)) }
{}
