//! The texts of help.

// What follows the help of a command: what it reads, what it writes, how it ends, and an
// example. With `going` it is of one that takes `--keep-going`.
macro_rules! more {
    (going $output:literal, $example:literal) => {
        more!(
            $output,
            "

  With --keep-going a message that is refused gives a line of its own,
  `refused at P: NAME in message N at O`, and the next one is read: in a capture
  that of the next packet, raw if its first 16 bytes state its size. If any was
  refused, the last such line is `N messages B bytes, K passed over C bytes`,
  and then `, the last one cut off` if the input ends within that one. With
  --resync raw messages are read on where that size leads, if a message begins
  there or the input ends; and else at the first message in the window.",
            $example
        )
    };
    ($output:literal, $going:literal, $example:literal) => {
        concat!(
            "Input:
  Standard input: raw messages, one after the other, as `dbus-monitor --binary`
  writes them; or a pcap or pcapng file, as `dbus-monitor --pcap` and
  `busctl capture` write it, of which the D-Bus packets are read. With
  --handshake the messages follow what that side of a connection sent before
  them. Offsets count the bytes of messages, from the first one. A message over
  one of the limits, which the options of a command lower, is refused.

Output:",
            $output,
            $going,
            "

  With --json a refusal is a line of JSON: an object of the reason, `refused`,
  its place, `offset`, the number of the message and its place, `message` and
  `begins`, `packet` if the file has packets, and `place`, `rule` and `header`,
  which explain it. The line that says how many messages there are is an object
  of `messages`, `bytes`, `passed_over`, `passed_bytes` and `cut_off`.

  With --explain lines after a refusal say which message it is, where its fault
  is, and what has to be there. If a pcap or pcapng file cannot be read to its
  end, the last line on standard error is `capture refused at P: NAME`, with the
  place in the file.

Exit status:
  0  the whole input is messages, or help was asked for
  1  the input is refused: it has bytes that are no message, or ends within one,
     or does not begin with the handshake; or its file cannot be read to the end
  2  the command line is wrong, or a limit is out of its range
  3  a read or a write failed, too many reads were made, or memory ran out

Example:",
            $example
        )
    };
}

/// What the help of a command says beside its flags.
#[derive(Clone, Copy)]
pub(crate) struct Texts {
    /// What it does.
    pub(crate) about: &'static str,
    /// How it is called.
    pub(crate) usage: &'static str,
    /// What follows.
    pub(crate) more: &'static str,
}

/// The version of the program.
pub(crate) const VERSION: &str = "0.1.0";

/// What the program does.
pub(crate) const PROGRAM: &str =
    "Lists, shows, checks, counts, filters, swaps and encodes D-Bus messages, and lists their calls";

/// What follows the program's help.
pub(crate) const PROGRAM_MORE: &str = more!(
    "
  What the command writes of each message, on standard output. If the input is
  refused, `refused at P: NAME` gives the place and the reason. check writes it
  to standard output; the others write it to standard error, and what they wrote
  of the messages before that place stays.",
    "",
    "
  dbus-monitor --session --binary > capture
  dbus-wire check < capture"
);

/// The help of `show`.
pub(crate) const SHOW: Texts = Texts {
    about: "Writes each message as text",
    usage: "dbus-wire show [OPTIONS] [RULE]... < FILE",
    more: more!(
    going "
  For each message a line on standard output with its number from 1, byte order,
  type, serial, flags and header fields, and below it a line for each value of
  its body. With --time the first line begins with the time of the message, in
  seconds since 1970, and a space, if the file has it. With --escape characters
  that a terminal obeys or does not draw are written as \\u{202e}. With rules only
  the messages that list would list are written. If the input is refused,
  `refused at P: NAME` on standard error.",
    "
  dbus-monitor --session --binary | dbus-wire show"
),
};

/// The help of `json`.
pub(crate) const JSON: Texts = Texts {
    about: "Writes each message as a line of JSON",
    usage: "dbus-wire json [OPTIONS] [RULE]... < FILE",
    more: more!(
    going "
  For each message one line on standard output, an object: its number from 1,
  its offset in bytes, its time in seconds since 1970 if the file has it and
  without --no-time, its length, order, type, flags and serial, each header
  field by its name, fields of other codes in `fields`, and the values of its
  body in `body`. With rules only the messages that list would list are written.
  If the input is refused, `refused at P: NAME` on standard error.

  JSON nests as deep as the message does, which can be over 128 levels: some
  parsers refuse that. Integers of 64 bits are written exactly; JavaScript
  and jq 1.6 round them: with --safe-integers those beyond 2^53 - 1, up or down,
  are strings.",
    "
  dbus-monitor --session --binary | dbus-wire json"
),
};

/// The help of `list`.
pub(crate) const LIST: Texts = Texts {
    about: "Writes each message as one line that fits a terminal",
    usage: "dbus-wire list [OPTIONS] [RULE]... < FILE",
    more: more!(
    going "
  For each message one line on standard output: its number from 1, the time of
  day in UTC if the file has it, its size in bytes, `SENDER > DESTINATION`, and
  of a call or a signal its member with the types of its values, of a reply the
  number and the member of its call and how long it took if the file has times,
  or the call's serial if the call was not seen; and the values. `:1.2(~Lab)` is
  a connection with the name that messages up to this one tell it to have. `*`
  is the destination of a signal to all, and `-` is in place of what a message
  does not say. What does not fit the width is cut, and `~` ends the line; `~`
  begins a name of which only the last elements are written. Characters that a
  terminal obeys or does not draw are written as \\x1b or \\u{202e}. If the
  input is refused, `refused at P: NAME` on standard error.

  With rules only the messages that match one of them are listed, or with
  --invert none of them; numbers count all. Rules and --may-match are those of
  filter, and owners are learned as there: see `dbus-wire filter --help`.",
    "
  dbus-wire list --width $COLUMNS < capture"
),
};

/// The help of `check`.
pub(crate) const CHECK: Texts = Texts {
    about: "Checks that the input is messages, and counts them",
    usage: "dbus-wire check [OPTIONS] < FILE",
    more: more!(
    going "
  One line on standard output: `ok N messages B bytes`, or `refused at P: NAME`
  with the place and the reason.",
    "
  dbus-wire check < capture"
),
};

/// The help of `count`.
pub(crate) const COUNT: Texts = Texts {
    about: "Counts the messages of each type, sender, member and so on",
    usage: "dbus-wire count [OPTIONS] [RULE]... < FILE",
    more: more!(
    going "
  Tables on standard output: for each type, sender, destination, interface,
  member and error name a line `N messages B bytes WORD NAME`, those of most
  messages first. If the file has times, the last line is
  `N messages in S seconds, R a second`, from the earliest to the latest. With
  --json each line is an object: the name behind its word, `messages` and
  `bytes`; the last one `seconds`, `messages` and `messages_per_second`. If the
  input is refused, `refused at P: NAME` on standard error, and the tables are
  those of the messages before. With rules only the messages that list would
  list are counted. Memory is allocated for each name, and not for each message.",
    "
  dbus-wire count < capture | grep ' member '"
),
};

/// The help of `calls`.
pub(crate) const CALLS: Texts = Texts {
    about: "Lists the calls, and what came of each",
    usage: "dbus-wire calls [OPTIONS] < FILE",
    more: more!(
    going "
  For each method call a line on standard output,
  `NUMBER SENDER > DESTINATION MEMBER OUTCOME`, once it is known what came of it:
  `reply #N T ms`, `error #N T ms NAME`, `no reply wanted`,
  `no reply: the caller left` or `no reply: its serial was used again`; and at
  the end of the input `no reply` for each call that waits. `T ms` is the time
  from the call to the reply, if the file has times. `-` is in place of what a
  call does not say. Behind a unique name is the one by which its connection is
  known from the messages up to the call, as in `:1.5(org.example.Lab)`. With
  --unanswered, --errors or --slower only calls of these outcomes are listed,
  with more of these those of each. If the input is refused,
  `refused at P: NAME` on standard error, and then the calls that wait there are
  listed. Memory is allocated for calls that wait and for names of connections.

  With --members the table of the members comes instead, those with most time
  first: `N calls N replies N errors N no reply MEMBER`, and before the member,
  if the file has times, `T ms total T ms mean T ms longest`: how long the
  METHOD_RETURNs took together, in the mean and at most.

  A reply answers the call of its serial, if its sender is the call's
  destination or the bus, or if that destination is a well-known name. Calls
  from before the capture are not seen, and their replies are not listed. If any
  answer no call that was seen, the last line on standard error is
  `N replies answer no call that was seen`.",
    "
  dbus-wire calls --unanswered < capture"
),
};

/// The help of `swap`.
pub(crate) const SWAP: Texts = Texts {
    about: "Writes each message in one byte order",
    usage: "dbus-wire swap [OPTIONS] --to <ORDER> [RULE]... < FILE",
    more: more!(
        "
  The messages on standard output, each in the byte order that is named: raw, or
  of a pcap or pcapng file as a pcap file with their times. With rules only the
  messages that list would list are written. If the input is refused,
  `refused at P: NAME` on standard error.",
        "",
        "
  dbus-wire swap --to B < capture > big-endian"
    ),
};

/// The help of `filter`.
pub(crate) const FILTER: Texts = Texts {
    about: "Writes the messages that match a rule, as they came",
    usage: "dbus-wire filter [OPTIONS] <RULE>... < FILE",
    more: more!(
    going "
  The messages that match one of the rules, or with --invert none of them, on
  standard output, each as it came: raw, or of a pcap or pcapng file as a pcap
  file with their times. Each word is a rule: `type=error,member=M` asks for
  both, and `type=error member=M` for one of the two. If the input is refused,
  `refused at P: NAME` on standard error. If a rule is refused, the first such
  rule gives `rule refused at P: NAME` there, with the place in it.

  Who owns a well-known name is not known, so sender='org.a.B' matches only a
  message that has that name itself. With --owner org.a.B=:1.7 it also matches
  what :1.7 sent: `busctl --user list` prints unique names, and GetNameOwner of
  the bus returns them. With --learn-owners the owners are also learned from the
  input, for the messages after each that tells one: signals NameOwnerChanged,
  NameAcquired and NameLost of the bus, its replies to RequestName and
  GetNameOwner, and the reply of :1.7 to a call to org.a.B.

  With --may-match rules are asked as by one who forbids messages: a call
  without INTERFACE may be of any, one to :1.7 is for each name that it owns,
  one without DESTINATION is for the bus, and what has no SENDER may be from
  anybody.",
    "
  dbus-wire filter \"type='signal',member='NameLost'\" < capture | dbus-wire show"
),
};

/// The help of `encode`.
pub(crate) const ENCODE: Texts = Texts {
    about: "Writes the messages that lines of JSON spell",
    usage: "dbus-wire encode [OPTIONS] < FILE",
    more: "Input:
  Standard input: lines as json writes them, each an object of JSON. Members may
  come in any order, but header fields are written in the order of theirs. type
  has to be there; order is l, flags are 0 and serial is the number of the line
  among those that are not blank if they are left out, and so may fields and
  body be if there are none. number, offset, length and time mean nothing. Any
  other name, or one twice, is refused. A blank line is passed over. An integer
  of 64 bits may be a string; with --safe-integers one beyond 2^53 - 1, up or
  down, has to be: a number may have been rounded.

Output:
  The messages, on standard output. A line that spells no message within the
  limits is refused: `refused at line N, column C: NAME` on standard error, with
  the line counted from 1 over all lines, and the column in bytes from 1; the
  manual page has the names. With --explain lines after that show the place in
  the line, and say what has to be there. The messages of the lines before it
  stay, and with --keep-going those of the lines after it follow.

Exit status:
  0  each line is a message or blank, or help was asked for
  1  a line is refused
  2  the command line is wrong, or a limit is out of its range
  3  a read or a write failed, too many reads were made, or memory ran out

Example:
  dbus-wire json < capture | jq -c 'select(.member)' | dbus-wire encode > calls",
};

/// The help of `handshake`.
pub(crate) const HANDSHAKES: Texts = Texts {
    about: "Lists the lines before the messages, and what each says",
    usage: "dbus-wire handshake --side <SIDE> < FILE",
    more: "Input:
  What one side of a connection sent, on standard input: a client the byte 0 and
  its lines up to BEGIN, a server its lines, of which one is OK, up to its first
  message. What follows is not looked at.

Output:
  For each line one on standard output: its offset, in bytes from the start of
  the input, the line, and what it says. After them `ok N lines B bytes`: the
  messages begin at offset B. If the input is refused,
  `handshake refused at P: NAME` on standard error, and the lines before that
  place stay.

Exit status:
  0  the input begins with the handshake of that side, or help was asked for
  1  the input is refused: it does not
  2  the command line is wrong
  3  a read or a write failed, or memory ran out

Example:
  dbus-wire handshake --side client < sent",
};
