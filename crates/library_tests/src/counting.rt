//! Counts of messages by their names.

use dbus_count::{Counts, Form, Span};
use dbus_view::MessageView;
use std::alloc::Global;
use std::test::Fail;

// A signal of the interface `a.b`.
const SIGNAL: &[u8] =
    b"l\x04\x00\x01\x18\x00\x00\x00\x02\x00\x00\x008\x00\x00\x00\x01\x01o\x00\x02\x00\x00\x00/a\x00\x00\x00\x00\x00\x00\x02\x01s\x00\x03\x00\x00\x00a.b\x00\x00\x00\x00\x00\x03\x01s\x00\x01\x00\x00\x00C\x00\x00\x00\x00\x00\x00\x00\x08\x01g\x00\x02sv\x00\x02\x00\x00\x00hi\x00\x02au\x00\x00\x08\x00\x00\x00\x01\x00\x00\x00\x02\x00\x00\x00";

// A call without an interface, with a sender and a destination.
const CALL: &[u8] =
    b"l\x01\x00\x01\x00\x00\x00\x00\x09\x00\x00\x00=\x00\x00\x00\x01\x01o\x00\x02\x00\x00\x00/a\x00\x00\x00\x00\x00\x00\x03\x01s\x00\x01\x00\x00\x00M\x00\x00\x00\x00\x00\x00\x00\x06\x01s\x00\x04\x00\x00\x00:1.2\x00\x00\x00\x00\x07\x01s\x00\x04\x00\x00\x00:1.7\x00\x00\x00\x00";

// An error.
const ERROR: &[u8] =
    b"l\x03\x00\x01\x00\x00\x00\x00\x01\x00\x00\x00\x14\x00\x00\x00\x05\x01u\x00\x01\x00\x00\x00\x04\x01s\x00\x03\x00\x00\x00d.e\x00\x00\x00\x00\x00";

// The tables of two such signals, a call and an error.
const TABLES: &str =
    "2 messages 192 bytes type signal\n1 messages 40 bytes type error\n1 messages 80 bytes type method_call\n1 messages 80 bytes sender :1.7\n1 messages 80 bytes destination :1.2\n2 messages 192 bytes interface a.b\n2 messages 192 bytes member a.b.C\n1 messages 80 bytes member M\n1 messages 40 bytes error d.e\n";

// The same as lines of JSON.
const OBJECTS: &str =
    "{\"type\":\"signal\",\"messages\":2,\"bytes\":192}\n{\"type\":\"error\",\"messages\":1,\"bytes\":40}\n{\"type\":\"method_call\",\"messages\":1,\"bytes\":80}\n{\"sender\":\":1.7\",\"messages\":1,\"bytes\":80}\n{\"destination\":\":1.2\",\"messages\":1,\"bytes\":80}\n{\"interface\":\"a.b\",\"messages\":2,\"bytes\":192}\n{\"member\":\"a.b.C\",\"messages\":2,\"bytes\":192}\n{\"member\":\"M\",\"messages\":1,\"bytes\":80}\n{\"error\":\"d.e\",\"messages\":1,\"bytes\":40}\n";

// The lines of a message, and of two that come a second and a half apart.
const ONE: &str = "error d.e\n1 messages in 0.000000000 seconds\n";

const TWO: &str = "error d.e\n2 messages in 1.500000000 seconds, 1.333 a second\n";

const TWO_OBJECTS: &str =
    "\"bytes\":40}\n{\"seconds\":1.500000000,\"messages\":2,\"messages_per_second\":1.333}\n";

// What counts the messages.
fn counted(alloc: Global) -> Result<Counts, Fail> {
    let mut counts = Counts::new(alloc);
    for bytes in [SIGNAL, CALL, ERROR, SIGNAL] {
        match MessageView::of(bytes) {
            Ok(view) => counts.add(&view)?,
            Err(_) => return Err(Fail::new("no message")),
        }
    }
    Ok(counts)
}

#[test]
fn messages_are_counted_by_their_names(rt: HostRuntime) -> Result<(), Fail> {
    let counts = counted(rt.alloc())?;
    assert!(rt; counts.tables(Form::Text, None)?.as_str() == TABLES);
    assert!(rt; counts.tables(Form::Json, None)?.as_str() == OBJECTS);
    Ok(())
}

#[test]
fn the_last_line_is_that_of_the_span(rt: HostRuntime) -> Result<(), Fail> {
    let counts = counted(rt.alloc())?;
    let one = Span::with_time(None, 2_000_000_000);
    let two = Span::with_time(Some(one), 500_000_000);
    assert!(rt;
        counts
            .tables(Form::Text, Some(one))?
            .as_str()
            .ends_with(ONE)
    );
    assert!(rt;
        counts
            .tables(Form::Text, Some(two))?
            .as_str()
            .ends_with(TWO)
    );
    assert!(rt;
        counts
            .tables(Form::Json, Some(two))?
            .as_str()
            .ends_with(TWO_OBJECTS)
    );
    Ok(())
}
