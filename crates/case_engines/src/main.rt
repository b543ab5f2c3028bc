//! `case_engines`: answers questions on texts, values, messages, streams of messages, match rules,
//! addresses, the handshake and the program dbus-wire, of which `cases/run.py` has the right
//! answers.
//!
//! Each line of its input is a question (`case_questions`), and each line that it prints the answer
//! to one, in the words of what the calls of the libraries return. cases/README.md says which
//! questions any implementation can answer; the others ask each call of the libraries that reads or
//! writes such bytes.
//!
//! What a question asks for takes its memory from the heap of the question, where a growth may be
//! refused. A call that was refused memory is made again if it keeps anything from call to call.
#![tactic(auto)]

mod addresses;
mod agreeing;
mod asked;
mod changes;
mod checking;
mod composing;
mod devices;
mod ends;
mod fronts;
mod headers;
mod line_cutting;
mod lines;
mod long_streams;
mod machines;
mod made;
mod messages;
mod parts;
mod pieces;
mod questions;
mod readers;
mod reading;
mod repeated;
mod rules;
mod running;
mod seeing;
mod setups;
mod showing;
mod streams;
mod texts;
mod values;
mod watching;
mod whole;
mod writing;

use case_questions::reply_to;
use questions::Engines;
use std::io;

fn main(rt: HostRuntime) -> io::Result<()> {
    let alloc = rt.alloc();
    let questions = io::read_to_string(alloc, rt.stdin())?;
    for line in questions.lines() {
        println!(rt; "{}", reply_to(Engines, alloc, line).line())?;
    }
    Ok(())
}
