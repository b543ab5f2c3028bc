//! Ends of a connection as the settings of a question say them.

ghost use Rattle.std.specs.Prelude.{◌≡◌, IfSome};
ghost use Rattle.dbus_auth.specs.ClientViews.{client_machine};
ghost use Rattle.dbus_auth.specs.ServerViews.{server_machine};
ghost use Rattle.dbus_auth.specs.declared.states.ClientState.TheVariants as now;
ghost use Rattle.dbus_auth.specs.declared.states.ServerState.TheVariants as at;

use crate::lines::guid_of;
use case_questions::{Question, bytes_of};
use dbus_auth::{Bounds, Client, Mechanism, Server};
use std::alloc::Allocator;

/// The server of `guid=`, `user=`, `anonymous=yes` and `agrees=yes`, of which the last three may be
/// left out.
pub(crate) fn server_of<A: Allocator + Copy>(alloc: A, question: Question<'_>) -> Option<Server>
    ensures { IfSome result (λ s. (server_machine s).state ≡ at.WaitingForAuth) }
{
    let guid = guid_of(alloc, question.setting("guid")?)?;
    let is_anonymous = question.setting("anonymous").is_some();
    let server = Server::new(guid, question.uint32("user"), is_anonymous);
    Some(server.with_descriptors(question.setting("agrees").is_some()))
}

/// The client of `mechanisms=` and `asks=yes`, which may be left out.
pub(crate) fn client_of<A: Allocator + Copy>(alloc: A, question: Question<'_>) -> Option<Client<A>>
    ensures { IfSome result (λ c. (client_machine c).state ≡ now.Fresh) }
{
    let client = Client::new(mechanisms_of(alloc, question)?).ok()?;
    Some(client.with_descriptors(question.setting("asks").is_some()))
}

/// The bounds of `rejections=` and `errors=`, which are both there or neither.
pub(crate) fn bounds_of(question: Question<'_>) -> Option<Bounds> {
    Some(Bounds {
        rejections: question.uint32("rejections")?,
        errors: question.uint32("errors")?,
    })
}

// The mechanisms of a client that `mechanisms=` says, with a comma between any two: `external:`,
// `external:1000` and `anonymous:78`.
fn mechanisms_of<A: Allocator + Copy>(
    alloc: A,
    question: Question<'_>,
) -> Option<Vec<Mechanism<A>, A>> {
    let mut mechanisms = Vec::new(alloc);
    for word in question.setting("mechanisms").unwrap_or("").split(',') {
        let Some((name, said)) = word.split_once(':') else {
            break;
        };
        let mechanism = match name {
            "external" => Mechanism::External(said.parse().ok()),
            _ => Mechanism::Anonymous(bytes_of(alloc, said)),
        };
        mechanisms.push(mechanism).ok()?;
    }
    Some(mechanisms)
}
