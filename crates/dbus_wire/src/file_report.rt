//! What is said of the file that holds the messages.
ghost use Rattle.std.specs.Prelude.{◌≡◌, IfOk, string_bytes};
ghost use Rattle.dbus_wire.specs.FileReports.{TellsFile, TellsLines, advice, count_line, fault_line, file_text, form_of, has_cut, is_whole, status_of};

use crate::tell;
use cli_report::{Cause, give_up};
use dbus_capture::{CaptureFault, CaptureReason};
use dbus_stream::Sink;
use dbus_tool::{ExitStatus, Settings};
use std::alloc::{AllocError, Global};

// How it is said.
#[derive(Clone, Copy)]
pub(crate) enum Telling {
    // In lines of text.
    Text,
    // In the same, with what to do about packets that were cut.
    Explained,
    // In objects of JSON.
    Json,
}

// The form that a command's settings ask for.
pub(crate) fn form_of(settings: Settings) -> Telling
    ensures { result ≡ form_of settings }
{
    if settings.as_json {
        Telling::Json
    } else if settings.explains {
        Telling::Explained
    } else {
        Telling::Text
    }
}

// What is known of a file once it was read.
#[derive(Clone, Copy)]
pub(crate) struct FileEnd {
    // How many packets were passed over since they were cut, modulo 2^64.
    pub(crate) cut: u64,
    // How many were passed over since they are of another link type, modulo 2^64.
    pub(crate) others: u64,
    // Why it cannot be read on.
    pub(crate) fault: Option<CaptureFault>,
}

// After a run that read all that the file gives, writes how many packets were passed over, if any
// were, and why no more can be read of it, if it has a fault. If packets were cut, or if it has a
// fault, the input is refused then.
pub(crate) fn tell_file<E: Sink>(
    alloc: Global,
    end: FileEnd,
    form: Telling,
    status: ExitStatus,
    second: &mut E,
) -> ExitStatus
    ensures { TellsFile E.held E.failures second.old second.new end form status result }
{
    if is_whole(end) {
        return status;
    }
    match status {
        ExitStatus::Done => tell_lines(alloc, end, form, status_of(end), second),
        ExitStatus::Refused => tell_lines(alloc, end, form, ExitStatus::Refused, second),
        ExitStatus::Usage => ExitStatus::Usage,
        ExitStatus::Failed => ExitStatus::Failed,
    }
}

// Whether all packets of the file were read, and it has no fault.
fn is_whole(end: FileEnd) -> bool
    ensures { result ≡ is_whole end }
{
    end.cut == 0 && end.others == 0 && end.fault.is_none()
}

// The status if nothing else is refused: that of a refused input if a packet was cut, or if there
// is a fault.
fn status_of(end: FileEnd) -> ExitStatus
    ensures { result ≡ status_of end }
{
    if end.cut == 0 && end.fault.is_none() {
        ExitStatus::Done
    } else {
        ExitStatus::Refused
    }
}

// Writes these lines.
fn tell_lines<E: Sink>(
    alloc: Global,
    end: FileEnd,
    form: Telling,
    status: ExitStatus,
    second: &mut E,
) -> ExitStatus
    ensures { TellsLines E.held E.failures second.old second.new end form status result }
{
    match file_text(alloc, end, form) {
        Ok(text) => tell(text.as_str(), status, second),
        Err(AllocError) => give_up(Cause::Memory, second),
    }
}

// The lines: how many packets were passed over, the file's fault, and what to do.
fn file_text(alloc: Global, end: FileEnd, form: Telling) -> Result<String, AllocError>
    ensures { IfOk result (λ text. string_bytes text ≡ file_text end form) }
{
    let as_json = matches!(form, Telling::Json);
    let cut = count_line(alloc, end.cut, as_json, "cut_packets", "cut packet")?;
    let others = count_line(
        alloc,
        end.others,
        as_json,
        "non_dbus_packets",
        "non-D-Bus packet",
    )?;
    let fault = fault_line(alloc, end.fault, as_json)?;
    let advice = advice(end, form);
    format!(in alloc; "{cut}{others}{fault}{advice}")
}

// What to do about packets that were cut, if that is to be said.
fn advice(end: FileEnd, form: Telling) -> &'static str
    ensures { result.now ≡ advice end form }
{
    if matches!(form, Telling::Explained) && has_cut(end) {
        "  busctl captures 4,096 bytes of a message, and all with --size=128M\n"
    } else {
        ""
    }
}

// Whether a packet was cut.
fn has_cut(end: FileEnd) -> bool
    ensures { result ≡ has_cut end }
{
    match end.fault {
        Some(fault) => end.cut > 0 || matches!(fault.reason, CaptureReason::PacketCut),
        None => end.cut > 0,
    }
}

// The line of so many packets that were passed over, if any were.
fn count_line(
    alloc: Global,
    count: u64,
    as_json: bool,
    member: &str,
    packet: &str,
) -> Result<String, AllocError>
    ensures { IfOk result (λ text.
        string_bytes text ≡ count_line count as_json member.now packet.now) }
{
    if count == 0 {
        return Ok(String::new(alloc));
    }
    if as_json {
        return format!(in alloc; "{{\"{member}\":{count}}}\n");
    }
    if count == 1 {
        return format!(in alloc; "capture: 1 {packet} passed over\n");
    }
    format!(in alloc; "capture: {count} {packet}s passed over\n")
}

// The line of the file's fault, if it has one.
fn fault_line(
    alloc: Global,
    fault: Option<CaptureFault>,
    as_json: bool,
) -> Result<String, AllocError>
    ensures { IfOk result (λ text. string_bytes text ≡ fault_line fault as_json) }
{
    let Some(fault) = fault else {
        return Ok(String::new(alloc));
    };
    let place = fault.at;
    let reason = fault.reason;
    if as_json {
        return format!(in alloc; "{{\"capture_refused\":\"{reason}\",\"file_offset\":{place}}}\n");
    }
    format!(in alloc; "capture refused at {place}: {reason}\n")
}
