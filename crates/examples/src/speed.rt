//! Measures how many MB per second messages are read into trees and written from them in.
//!
//! It decodes the messages of standard input, encodes the first of them, and makes a signal from
//! values to bytes. With a number of MB it makes each measure over so many and prints its MB/s;
//! with none it makes each once and prints what it read and wrote.

use crate::signal::signal;
use anyhow::{Result, bail};
use dbus_message::{Answer, Message, decode, encode};
use dbus_value::Order;
use std::alloc::Global;
use std::io::Read;
use std::time::Instant;

// How many bytes the signal has.
const SIGNAL_LENGTH: usize = 897;

// What a round of a measure does.
#[derive(Clone, Copy)]
enum Work<'a> {
    // It decodes the messages that these bytes begin with.
    Decode(&'a [u8]),
    // It encodes this message.
    Encode(&'a Message),
    // It makes the signal.
    Make,
}

// How many messages these bytes begin with.
fn count_decoded(alloc: Global, bytes: &[u8]) -> u64 {
    let mut rest = bytes;
    let mut count = 0u64;
    for _ in 0..bytes.len() {
        match decode(alloc, rest) {
            Ok(Answer::Whole { used, .. }) => rest = rest.get(used..).unwrap_or(&[]),
            _ => break,
        }
        count = count.saturating_add(1);
    }
    count
}

// Makes one round: how many messages it came to, 0 if it failed.
fn round(alloc: Global, work: Work) -> u64 {
    match work {
        Work::Decode(bytes) => count_decoded(alloc, bytes),
        Work::Encode(message) => u64::from(encode(alloc, message, Order::Big).is_ok()),
        Work::Make => u64::from(signal(alloc).is_ok()),
    }
}

// So many in each round, over all rounds, in a unit.
fn scaled(each: u64, rounds: u64, unit: u128) -> u128 {
    (u128::from(each) * u128::from(rounds)).saturating_mul(unit)
}

// Makes rounds of this many bytes each that come to so many MB, one at least, and prints how fast
// they were. Without a number of MB it makes one, and prints no time.
fn measure(
    rt: &HostRuntime,
    megabytes: Option<u32>,
    name: &str,
    work: Work,
    bytes: usize,
) -> Result<()> {
    let all = u64::from(megabytes.unwrap_or(0)) * 1_000_000;
    let rounds = (all / (bytes.max(1) as u64)).max(1);
    let start = Instant::now(rt)?;
    let mut messages = 0;
    for _ in 0..rounds {
        messages = round(rt.alloc(), work);
    }
    let nanoseconds = start.elapsed(rt)?.as_nanos().max(1);
    if messages == 0 {
        bail!("{name}: it failed");
    }
    if megabytes.is_none() {
        println!(rt; "{name}: {messages} in {bytes} bytes")?;
    } else {
        let speed = scaled(bytes as u64, rounds, 1_000) / nanoseconds;
        let rate = scaled(messages, rounds, 1_000_000_000) / nanoseconds;
        println!(rt; "{name}: {speed} MB/s, {rate} a second")?;
    }
    Ok(())
}

// Makes all measures, of these bytes and of the first message that they have.
fn measure_all(
    rt: &HostRuntime,
    megabytes: Option<u32>,
    bytes: &[u8],
    first: &Message,
) -> Result<()> {
    measure(
        rt,
        megabytes,
        "decode messages",
        Work::Decode(bytes),
        bytes.len(),
    )?;
    measure(
        rt,
        megabytes,
        "encode the first message",
        Work::Encode(first),
        first.size(),
    )?;
    measure(
        rt,
        megabytes,
        "make and encode a signal",
        Work::Make,
        SIGNAL_LENGTH,
    )
}

/// Measures with the messages on standard input, over so many MB each.
pub(crate) fn run(rt: &HostRuntime, megabytes: Option<u32>) -> Result<()> {
    let mut bytes = Vec::new(rt.alloc());
    rt.stdin().read_to_end(&mut bytes)?;
    match decode(rt.alloc(), &bytes)? {
        Answer::Whole { message, .. } => measure_all(rt, megabytes, &bytes, &message),
        Answer::Partial => bail!("the input ends within a message"),
    }
}
