//! `examples WORD [NUMBER]`: five programs that use the libraries as another program would, each in
//! a file of its own.
//!
//! The word is `greet`, `values`, `service`, `client` or `speed`; these files say what each does. A
//! service or a client takes the number of a user, and `speed` one of MB.
#![tactic(auto)]

mod client;
mod connection;
mod greet;
mod replies;
mod service;
mod session;
mod signal;
mod speed;
mod values;

use anyhow::{Result, bail};
use std::env;

// Runs the program that the words after the first name.
fn run(rt: &HostRuntime, words: &[String]) -> Result<()> {
    let number = match words.get(2) {
        Some(word) => Some(word.as_str().parse()?),
        None => None,
    };
    let word = match words.get(1) {
        Some(word) => word.as_str(),
        None => "",
    };
    match word {
        "greet" => greet::run(rt),
        "values" => values::run(rt),
        "service" => service::run(rt, number),
        "client" => client::run(rt, number),
        "speed" => speed::run(rt, number),
        _ => bail!("which: greet, values, service, client or speed?"),
    }
}

fn main(rt: HostRuntime) -> Result<()> {
    let words: Vec<String> = env::args(&rt)?.collect(rt.alloc())?;
    run(&rt, &words)
}
