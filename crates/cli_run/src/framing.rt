//! Messages that are written as packets of a pcap file, or alone.
ghost use Rattle.std.specs.Prelude.{◌≡◌, ◌<◌, ◌^◌, length};
ghost use Rattle.cli_run.specs.Output.{frame_if, header_if, is_framed};
ghost use Rattle.cli_run.specs.Handing.{after_front, front_of};

use crate::byte_draft::ByteDraft;
use crate::place::MessagePlace;
use cli_options::FileForm;
use dbus_pcap::{file_header, packet_header};

/// What comes before a message that is written.
#[derive(Clone, Copy)]
pub(crate) struct Front {
    /// Whether the header of a file comes first.
    pub(crate) begins_file: bool,
    /// Whether the header of a packet comes then.
    pub(crate) is_framed: bool,
    /// The time in that header.
    pub(crate) time: Option<u64>,
}

impl Front {
    /// What comes before a message of this place in this form. The header of a file is not due if
    /// one was looked at before.
    pub(crate) fn of(form: FileForm, place: MessagePlace, begun: bool) -> Front
        ensures { result ≡ front_of form place begun }
    {
        let is_framed = is_framed(form, place);
        Front {
            begins_file: is_framed && !begun,
            is_framed,
            time: place.time,
        }
    }
}

// Whether a message of this place is written as a packet in this form.
fn is_framed(form: FileForm, place: MessagePlace) -> bool
    ensures { result ≡ is_framed form place }
{
    match form {
        FileForm::Raw => false,
        FileForm::AsRead => place.in_packet,
    }
}

/// Appends the message after what comes before it.
pub(crate) fn write_message<D: ByteDraft>(draft: &mut D, front: Front, bytes: &[u8])
    requires { length bytes.now < 2 ^ 32 }
    ensures { D.gains draft.old (after_front front bytes.now) draft.new }
{
    write_file_header(draft, front);
    write_packet_header(draft, front, bytes);
    draft.append(bytes);
}

/// Appends the header of a file, if it is due.
pub(crate) fn write_file_header<D: ByteDraft>(draft: &mut D, front: Front)
    ensures { D.gains draft.old (header_if front.begins_file) draft.new }
{
    if front.begins_file {
        draft.append(&file_header());
    }
}

// Appends the header of the packet that the bytes are, if it is due.
fn write_packet_header<D: ByteDraft>(draft: &mut D, front: Front, bytes: &[u8])
    requires { length bytes.now < 2 ^ 32 }
    ensures { D.gains draft.old (frame_if front.is_framed front.time bytes.now) draft.new }
{
    if front.is_framed {
        draft.append(&packet_header(front.time, bytes));
    }
}
