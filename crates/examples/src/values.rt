//! Prints the values of the messages on standard input, in place. No tree is built but of a
//! property that is a container.
//!
//! Of `NameOwnerChanged` it prints the name and its owners, of `PropertiesChanged` each property
//! and its new value, and of any other message the numbers of each array of UINT32 in its body.

use anyhow::{Result, bail};
use dbus_display::Shown;
use dbus_message::{
    Elements, MessageView, ValueView, Values, copy_value, copy_values, stated_length,
};
use dbus_typed::body_as;
use dbus_value::Value;
use std::alloc::Global;
use std::io::{self, Read};

// A name, its old owner and its new one: an empty text is no owner.
fn print_owners(rt: &HostRuntime, view: &MessageView) -> Result<()> {
    let Some((name, old, new)) = body_as::<(&str, &str, &str)>(view) else {
        bail!("the body of NameOwnerChanged is not three texts");
    };
    println!(rt; "owner {name}")?;
    println!(rt; "owner {old}")?;
    println!(rt; "owner {new}")?;
    Ok(())
}

// A property's value, as a variant holds it. A struct is copied, as to keep it when the bytes are
// gone.
fn print_property(rt: &HostRuntime, alloc: Global, name: &str, held: Values) -> io::Result<()> {
    if held.first_code() == Some(b'(') {
        if let Some(Value::Struct(fields)) = copy_value(alloc, &held)? {
            println!(rt; "{name} has {} fields", fields.len())?;
        }
        return Ok(());
    }
    println!(rt; "{name} is {}", Shown(&held))
}

// An interface, a dictionary of its properties and their new values, and the names of others.
fn print_changes(rt: &HostRuntime, alloc: Global, view: &MessageView) -> Result<()> {
    let mut values = view.body();
    let (Some(ValueView::Str(interface)), Some(ValueView::Array(changed))) = (
        values.next(),
        values.next(),
    ) else {
        bail!("no PropertiesChanged");
    };
    println!(rt; "of {interface}")?;
    for element in changed {
        let ValueView::Entry(mut entry) = element else {
            break;
        };
        let (Some(ValueView::Str(name)), Some(ValueView::Variant(held))) = (
            entry.next(),
            entry.next(),
        ) else {
            break;
        };
        print_property(rt, alloc, name, held)?;
    }
    // What is left of the body is the names of the others.
    if let Some(Value::Array(_, names)) = copy_values(alloc, &values)?.first() {
        println!(rt; "others: {}", names.len())?;
    }
    Ok(())
}

// Numbers of 4 bytes, as a slice of their bytes in the message's order.
fn print_numbers(rt: &HostRuntime, elements: &Elements) -> io::Result<()> {
    let order = elements.order();
    for number in elements.number_bytes().unwrap_or(&[]).chunks_exact(4) {
        println!(rt; "number {}", order.u32_at(number, 0))?;
    }
    Ok(())
}

fn print_arrays(rt: &HostRuntime, view: &MessageView) -> io::Result<()> {
    for value in view.body() {
        if let ValueView::Array(elements) = value {
            if elements.types() == b"u".as_slice() {
                print_numbers(rt, &elements)?;
            }
        }
    }
    Ok(())
}

fn print_message(rt: &HostRuntime, alloc: Global, view: &MessageView) -> Result<()> {
    match view.member() {
        Some("NameOwnerChanged") => print_owners(rt, view)?,
        Some("PropertiesChanged") => print_changes(rt, alloc, view)?,
        _ => print_arrays(rt, view)?,
    }
    Ok(())
}

fn print_all(rt: &HostRuntime, bytes: &[u8]) -> Result<()> {
    let mut rest = bytes;
    // Each round takes a message at least.
    for _ in 0..bytes.len() {
        if rest.is_empty() {
            break;
        }
        let Some(length) = stated_length(rest)? else {
            bail!("the input ends within a header");
        };
        let Some((message, more)) = rest.split_at_checked(length as usize) else {
            bail!("the input ends within a message");
        };
        print_message(rt, rt.alloc(), &MessageView::of(message)?)?;
        rest = more;
    }
    Ok(())
}

/// Prints the values of the messages on standard input.
pub(crate) fn run(rt: &HostRuntime) -> Result<()> {
    let mut bytes = Vec::new(rt.alloc());
    rt.stdin().read_to_end(&mut bytes)?;
    print_all(rt, &bytes)
}
