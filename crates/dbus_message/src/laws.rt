//! Laws of messages, of what bytes are to a decoder: whole, refused or partial, and of the length
//! that they state. Each function's contract is a law; it does nothing when it runs.
#![tactic(auto)]

ghost use Rattle.dbus_header.specs.OutcomeLaws.{OneMessage, OneLength, SomeOutcome, OneOutcome, OneWhole, OneFault, WholeForGood, RefusedForGood, WiderWhole, ReadsMessages, ReadsMessageFaults};
ghost use Rattle.dbus_message_model.specs.KeptLimits.{WiderLimits, ValidWithin};
ghost use Rattle.dbus_header.specs.StatedLengths.{StatedHolds, WholeStates, OneStated, SomeStated};

/// No message's bytes begin another message's, and bytes spell at most one message in at most one
/// order.
pub fn one_message()
    ensures { OneMessage }
{}

/// Both orders spell a message in as many bytes.
pub fn one_length()
    ensures { OneLength }
{}

/// Every list of bytes is whole, refused or partial.
pub fn some_outcome()
    ensures { SomeOutcome }
{}

/// Nothing is two of whole, refused and partial.
pub fn one_outcome()
    ensures { OneOutcome }
{}

/// Bytes begin with at most one message.
pub fn one_whole()
    ensures { OneWhole }
{}

/// A refusal has one place and reason.
pub fn one_fault()
    ensures { OneFault }
{}

/// What begins with a message begins with it whatever bytes follow.
pub fn whole_for_good()
    ensures { WholeForGood }
{}

/// What is refused is refused so whatever bytes follow.
pub fn refused_for_good()
    ensures { RefusedForGood }
{}

/// Whatever follows bytes for which `stated_length` gives a length, a message that they begin with
/// has this number of bytes, and all are there.
pub fn stated_holds()
    ensures { StatedHolds }
{}

/// `stated_length` gives the length of each message, which is 16 at least.
pub fn whole_states()
    ensures { WholeStates }
{}

/// Bytes state at most one length, and state it whatever follows.
pub fn one_stated()
    ensures { OneStated }
{}

/// Sixteen bytes and more state a length or are refused.
pub fn some_stated()
    ensures { SomeStated }
{}

/// A message that keeps limits keeps limits none of which is smaller.
pub fn wider_limits()
    ensures { WiderLimits }
{}

/// What begins with a message under limits begins with it under limits none of which is smaller.
pub fn wider_whole()
    ensures { WiderWhole }
{}

/// The messages that are valid within limits are the valid ones that keep them, as
/// `Message::within` says.
pub fn valid_within()
    ensures { ValidWithin }
{}

/// The plain reader gives a message exactly if the bytes begin with its spelling.
pub fn reads_messages()
    ensures { ReadsMessages }
{}

/// The plain reader gives a fault exactly if the bytes are refused with it.
pub fn reads_message_faults()
    ensures { ReadsMessageFaults }
{}
