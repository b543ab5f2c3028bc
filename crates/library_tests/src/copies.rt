//! Copies, where memory is there: each says the same as what it was made of, and other values do
//! not.

use cli_options::{Asked, Command, Output, command_of};
use dbus_auth::{EndStep, Mechanism, Status};
use dbus_auth_lines::{ClientLine, ServerLine};
use dbus_rule::{RuleFault, parse_rule};
use std::alloc::{AllocError, Global};
use std::test::Fail;

// Whether a copy of the value says the same, and another value does not.
fn is_copied<T: Clone + PartialEq + Drop>(value: &T, other: &T) -> Result<bool, AllocError> {
    let copy = value.clone()?;
    Ok(copy == *value && *value != *other)
}

fn client_lines(alloc: Global) -> Result<bool, AllocError> {
    let line = ClientLine::DataOf(Vec::from_slice(alloc, b"x")?);
    is_copied(&line, &ClientLine::Cancel)
}

fn server_lines(alloc: Global) -> Result<bool, AllocError> {
    let line = ServerLine::DataOf(Vec::from_slice(alloc, b"x")?);
    is_copied(&line, &ServerLine::Agree)
}

fn mechanisms(alloc: Global) -> Result<bool, AllocError> {
    let mechanism = Mechanism::Anonymous(Vec::from_slice(alloc, b"trace")?);
    is_copied(&mechanism, &Mechanism::External(Some(1000)))
}

fn steps(alloc: Global) -> Result<bool, AllocError> {
    let step = EndStep {
        taken: 3,
        send: Vec::from_slice(alloc, b"BEGIN\r\n")?,
        status: Status::Begun,
    };
    let other = EndStep {
        taken: 3,
        send: Vec::new(alloc),
        status: Status::Begun,
    };
    is_copied(&step, &other)
}

fn rules(alloc: Global) -> Result<bool, RuleFault> {
    let rule = parse_rule(alloc, "type='signal',member='X'")?;
    let other = parse_rule(alloc, "type='signal'")?;
    Ok(is_copied(&rule, &other)?)
}

fn commands(alloc: Global) -> Result<bool, AllocError> {
    let mut words = Vec::new(alloc);
    for word in ["dbus-wire", "filter", "member='X'"] {
        words.push(String::from_str(alloc, word)?)?;
    }
    match command_of(alloc, words.as_slice()) {
        Ok(Asked::Messages(request)) => {
            let selection = request.selection;
            let output = Output::Nothing;
            let other = Command {
                output,
                selection: None,
            };
            is_copied(&Command { output, selection }, &other)
        }
        _ => Ok(false),
    }
}

#[test]
fn copied(rt: HostRuntime) -> Result<(), Fail> {
    let alloc = rt.alloc();
    assert!(rt; client_lines(alloc)?);
    assert!(rt; server_lines(alloc)?);
    assert!(rt; mechanisms(alloc)?);
    assert!(rt; steps(alloc)?);
    assert!(rt; rules(alloc)?);
    assert!(rt; commands(alloc)?);
    Ok(())
}
