//! How many lines an end sends that bring the handshake no further.

ghost use Rattle.std.specs.Prelude.{◌≡◌};
ghost use Rattle.dbus_auth.specs.Ends.{left_after, one_less};

/// How many lines of two kinds an end sends at most. It closes at the line that it would answer by
/// one more: it takes and sends nothing then.
///
/// D-Bus Specification, "Authentication Protocol", "Authentication state diagrams", "Server
/// states": a server disconnects a client that it rejected too often. How often is up to it; the
/// reference implementation rejects six times.
#[derive(Clone, Copy, PartialEq, Eq, Debug, Drop)]
pub struct Bounds {
    /// How many lines of REJECTED. A client sends none.
    pub rejections: u32,
    /// How many lines that leave it in its state: ERROR, and AGREE_UNIX_FD of a server.
    pub errors: u32,
}

/// What a line that an end sends counts as.
#[derive(Clone, Copy, Drop)]
pub enum Counted {
    /// The client is rejected.
    Rejection,
    /// The end stays in its state.
    Stay,
    /// The handshake goes on, and nothing is counted.
    Step,
}

/// What an end may still send after a line that counts as this; `None` if it may not send it.
pub(crate) fn left_after(left: Option<Bounds>, counted: Counted) -> Option<Option<Bounds>>
    ensures { result ≡ left_after left counted }
{
    let Some(bounds) = left else {
        return Some(None);
    };
    let Bounds { rejections, errors } = bounds;
    match counted {
        Counted::Rejection => Some(Some(Bounds {
            rejections: one_less(rejections)?,
            errors,
        })),
        Counted::Stay => Some(Some(Bounds {
            rejections,
            errors: one_less(errors)?,
        })),
        Counted::Step => Some(left),
    }
}

/// The number before this one; `None` of 0.
fn one_less(n: u32) -> Option<u32>
    ensures { result ≡ one_less n }
{
    if n == 0 { None } else { Some(n - 1) }
}
