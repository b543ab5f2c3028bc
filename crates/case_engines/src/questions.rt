//! Which engine answers a question.

use crate::addresses::say_addresses;
use crate::changes::say_changed;
use crate::composing::say_composed;
use crate::ends::{say_end, say_handshake};
use crate::fronts::{say_fronts, say_message};
use crate::line_cutting::say_cut;
use crate::lines::{say_meaning, say_written};
use crate::long_streams::say_long;
use crate::machines::say_machine;
use crate::made::OfMade;
use crate::messages::{say_matches, say_sent};
use crate::parts::say_new;
use crate::readers::{say_passed, say_read};
use crate::rules::{say_found, say_rule};
use crate::running::say_runs;
use crate::streams::OfStream;
use crate::texts::OfText;
use crate::values::OfValue;
use crate::watching::say_watched;
use crate::whole::OfWhole;
use crate::{made, streams, texts, values, whole};
use case_questions::{Answerer, Memory, Question, Reply, named};
use dbus_handshake_input::Side;
use std::alloc::Allocator;

// What is asked.
#[derive(Clone, Copy)]
enum Kind {
    // A text of a kind.
    Text(OfText),
    // A value of a type in a message's bytes.
    Value(OfValue),
    // A value or a type that words make.
    Made(OfMade),
    // What is made of a whole message.
    Whole(OfWhole),
    // The message that bytes begin with, or that each front of them begins with.
    Message,
    Fronts,
    // A message of parts, or made in a line.
    New,
    Compose,
    // What a stream is decoded to or cut into, or what a reader gives of it.
    Stream(OfStream),
    Read,
    // A message sent; what match rule a text spells, whether it matches a message, and which rules
    // of a set do.
    Send,
    Rule,
    Matches,
    Found,
    // The addresses that a text spells.
    Addresses,
    // Runs of the program.
    Run,
    // Of a side of the handshake: what a line of it means, the line of a meaning, what is left of
    // an input after it, what an end and its machine do.
    Line(Side),
    Written(Side),
    Pass(Side),
    End(Side),
    Machine(Side),
    // The lines that bytes are cut into.
    CutLines,
    // Both ends, and one who looks on.
    Handshake,
    Watch,
    // A message of which each byte is changed, and streams that are too long to hold.
    Changed,
    Long,
}

// The first word of each question.
const KINDS: &[(&str, Kind)] = &[
    ("text", Kind::Text(OfText::Verdict)),
    ("text-calls", Kind::Text(OfText::Calls)),
    ("text-in-two", Kind::Text(OfText::InTwo)),
    ("text-parse", Kind::Text(OfText::Parse)),
    ("value", Kind::Value(OfValue::Read)),
    ("value-fronts", Kind::Value(OfValue::Fronts)),
    ("value-ends", Kind::Value(OfValue::Ends)),
    ("value-validated", Kind::Value(OfValue::Validated)),
    ("value-checked", Kind::Value(OfValue::Checked)),
    ("value-by-bytes", Kind::Value(OfValue::ByBytes)),
    ("value-written", Kind::Value(OfValue::Written)),
    ("value-shown", Kind::Value(OfValue::Shown)),
    ("made", Kind::Made(OfMade::Checked)),
    ("past", Kind::Made(OfMade::Past)),
    ("spelled", Kind::Made(OfMade::Spelled)),
    ("string", Kind::Made(OfMade::String)),
    ("encode", Kind::Whole(OfWhole::Encode)),
    ("encode-into", Kind::Whole(OfWhole::EncodeInto)),
    ("build", Kind::Whole(OfWhole::Build)),
    ("names", Kind::Whole(OfWhole::Names)),
    ("field", Kind::Whole(OfWhole::Field)),
    ("argument", Kind::Whole(OfWhole::Argument)),
    ("byteswap", Kind::Whole(OfWhole::Byteswap)),
    ("header", Kind::Whole(OfWhole::Header)),
    ("see", Kind::Whole(OfWhole::See)),
    ("copy-first", Kind::Whole(OfWhole::CopyFirst)),
    ("copy-all", Kind::Whole(OfWhole::CopyAll)),
    ("show", Kind::Whole(OfWhole::Show)),
    ("message", Kind::Message),
    ("fronts", Kind::Fronts),
    ("new", Kind::New),
    ("compose", Kind::Compose),
    ("decode", Kind::Stream(OfStream::Decode)),
    ("cut", Kind::Stream(OfStream::Cut)),
    ("cut-in-two", Kind::Stream(OfStream::CutInTwo)),
    ("read", Kind::Read),
    ("send", Kind::Send),
    ("rule", Kind::Rule),
    ("matches", Kind::Matches),
    ("found", Kind::Found),
    ("addresses", Kind::Addresses),
    ("run", Kind::Run),
    ("client-line", Kind::Line(Side::Client)),
    ("server-line", Kind::Line(Side::Server)),
    ("client-written", Kind::Written(Side::Client)),
    ("server-written", Kind::Written(Side::Server)),
    ("client-pass", Kind::Pass(Side::Client)),
    ("server-pass", Kind::Pass(Side::Server)),
    ("client-end", Kind::End(Side::Client)),
    ("server-end", Kind::End(Side::Server)),
    ("client-machine", Kind::Machine(Side::Client)),
    ("server-machine", Kind::Machine(Side::Server)),
    ("cut-lines", Kind::CutLines),
    ("handshake", Kind::Handshake),
    ("watch", Kind::Watch),
    ("changed", Kind::Changed),
    ("long", Kind::Long),
];

/// The engines of this program.
#[derive(Clone, Copy)]
pub(crate) struct Engines;

impl Answerer for Engines {
    fn answer<A: Allocator + Copy>(
        self,
        reply: &mut Reply,
        memory: Memory<A>,
        question: Question<'_>,
    ) -> bool {
        let Some(kind) = named(KINDS, question.word(0)) else {
            return false;
        };
        let said = match kind {
            Kind::Text(asked) => texts::say(reply, memory, question, asked),
            Kind::Value(asked) => values::say(reply, memory, question, asked),
            Kind::Made(asked) => made::say(reply, memory, question, asked),
            Kind::Whole(asked) => whole::say(reply, memory, question, asked),
            Kind::Message => say_message(reply, memory, question),
            Kind::Fronts => say_fronts(reply, memory, question),
            Kind::New => say_new(reply, memory, question),
            Kind::Compose => say_composed(reply, memory, question),
            Kind::Stream(asked) => streams::say(reply, memory, question, asked),
            Kind::Read => say_read(reply, memory, question),
            Kind::Send => say_sent(reply, memory, question),
            Kind::Rule => say_rule(reply, memory, question),
            Kind::Matches => say_matches(reply, memory, question),
            Kind::Found => say_found(reply, memory, question),
            Kind::Addresses => say_addresses(reply, memory, question),
            Kind::Run => say_runs(reply, memory, question),
            Kind::Line(side) => say_meaning(reply, memory, question, side),
            Kind::Written(side) => say_written(reply, memory, question, side),
            Kind::Pass(side) => say_passed(reply, memory, question, side),
            Kind::End(side) => say_end(reply, memory, question, side),
            Kind::Machine(side) => say_machine(reply, memory, question, side),
            Kind::CutLines => say_cut(reply, memory, question),
            Kind::Handshake => say_handshake(reply, memory, question),
            Kind::Watch => say_watched(reply, memory, question),
            Kind::Changed => say_changed(reply, question),
            Kind::Long => say_long(reply, question),
        };
        said.is_some()
    }
}
