//! Server addresses.

use case_questions::{Memory, Question, Reply, bytes_of};
use dbus_address::{
    AddressParts, AddressView, PairParts, PairView, addresses_text, parse_addresses,
};
use std::alloc::{AllocError, Allocator};

// A key and its value, copied.
#[derive(Drop)]
struct CopiedPair<A: Allocator> {
    key: Vec<u8, A>,
    value: Vec<u8, A>,
}

fn copied<A: Allocator + Copy>(alloc: A, pair: PairView<'_>) -> Result<CopiedPair<A>, AllocError> {
    let mut key = Vec::new(alloc);
    key.extend_from_slice(pair.key)?;
    let mut value = Vec::new(alloc);
    for b in pair.value {
        value.push(b)?;
    }
    Ok(CopiedPair { key, value })
}

// The keys and values of an address.
fn pairs_of<A: Allocator + Copy>(
    alloc: A,
    address: &AddressView<'_>,
) -> Result<Vec<CopiedPair<A>, A>, AllocError> {
    let mut pairs = Vec::new(alloc);
    for pair in address.pairs {
        pairs.push(copied(alloc, pair)?)?;
    }
    Ok(pairs)
}

// The same, to be written.
fn parts_of<A: Allocator + Copy>(
    alloc: A,
    pairs: &[CopiedPair<A>],
) -> Result<Vec<PairParts<'_>, A>, AllocError> {
    let mut parts = Vec::new(alloc);
    for pair in pairs {
        parts.push(PairParts {
            key: pair.key.as_slice(),
            value: pair.value.as_slice(),
        })?;
    }
    Ok(parts)
}

// Adds the text of an address: all its parts have one lifetime here.
fn say_parts<'a, A: Allocator + Copy>(
    reply: &mut Reply,
    memory: Memory<A>,
    transport: &'a [u8],
    pairs: &'a [PairParts<'a>],
) {
    let written = [AddressParts { transport, pairs }];
    reply.made(addresses_text(memory.heap, &written));
}

// Adds the text of an address that was read.
fn say_written<A: Allocator + Copy>(
    reply: &mut Reply,
    memory: Memory<A>,
    address: &AddressView<'_>,
) -> Result<(), AllocError> {
    let pairs = pairs_of(memory.spare, address)?;
    let parts = parts_of(memory.spare, pairs.as_slice())?;
    say_parts(reply, memory, address.transport, parts.as_slice());
    Ok(())
}

/// Adds the text of each address that a text spells, or why it is refused.
pub(crate) fn say_addresses<A: Allocator + Copy>(
    reply: &mut Reply,
    memory: Memory<A>,
    question: Question<'_>,
) -> Option<()> {
    let text = bytes_of(memory.spare, question.word(1));
    match parse_addresses(text.as_slice()) {
        Ok(addresses) => {
            for address in addresses {
                say_written(reply, memory, &address).ok()?;
            }
        }
        Err(fault) => reply.told(&fault),
    }
    Some(())
}
