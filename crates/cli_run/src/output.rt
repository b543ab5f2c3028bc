//! What is written of each message.
ghost use Rattle.std.specs.Prelude.{◌≡◌, ◌++◌, [], ℕ, List, OnErr, OnOk, length};
ghost use Rattle.std.proofs.Common.{ap};
ghost use Rattle.dbus_value_model.specs.declared.order.Order.{Order};
ghost use Rattle.dbus_message_model.specs.Messages.{MessageTree};
ghost use Rattle.dbus_header.specs.MessageOutcomes.{IsWhole};
ghost use Rattle.dbus_validate.specs.Validating.{IsValidatedWhole};
ghost use Rattle.cli_run.specs.Output.{IsTextOf, begins_file, form_of, header_if, is_check, is_filled};
ghost use Rattle.cli_run.specs.Rendering.{Makes, OutputState, is_full, state_of};
ghost use Rattle.cli_run.specs.RenderingLaws as laws;

use crate::byte_draft::ByteDraft;
use crate::framing::{Front, write_file_header, write_message};
use crate::picking::picks;
use crate::place::Lent;
use crate::renderer::Renderer;
use crate::selector::Selector;
use crate::showing::{show, write_json_line};
use crate::swapping::swap;
use crate::window::{is_spent, lets_through};
use cli_options::{FileForm, Output, Window};
use dbus_names::Names;
use std::alloc::{AllocError, Allocator};

/// Whether it is that of `check`, of which what is told goes to the first writer.
pub(crate) fn is_check(output: Output) -> bool
    ensures { result ≡ is_check output }
{
    match output {
        Output::Nothing => true,
        Output::Text { .. } => false,
        Output::JsonLine { .. } => false,
        Output::InOrder(_, _) => false,
        Output::AsIs(_) => false,
    }
}

// The form in which messages are written; if none are, it is raw.
fn form_of(output: Output) -> FileForm
    ensures { result ≡ form_of output }
{
    match output {
        Output::Nothing => FileForm::Raw,
        Output::Text { .. } => FileForm::Raw,
        Output::JsonLine { .. } => FileForm::Raw,
        Output::InOrder(_, form) => form,
        Output::AsIs(form) => form,
    }
}

// Appends the text that is written of the message, after the header of a file if that is
// due: if `begun` says that no message was looked at before. A message is byteswapped in `spare`, so
// that only a longer one than those before takes memory.
fn write_one<A: Allocator + Copy, D: ByteDraft>(
    output: Output,
    lent: &Lent,
    begun: bool,
    spare: &mut Vec<u8, A>,
    draft: &mut D,
) -> Result<(), AllocError>
    requires { IsValidatedWhole lent.now.limits lent.now.bytes.now lent.now.validated }
    ensures writes { (order : Order) (m : MessageTree) →
        IsWhole lent.now.limits lent.now.bytes.now order m (length lent.now.bytes.now) →
        (text : List ℕ) × IsTextOf output order m lent.now.place text ×
        OnOk result (D.gains draft.old
        (header_if (begins_file (form_of output) lent.now.place begun) ++ text)
        draft.new) }
    ensures short { OnErr result (D.gains draft.old [] draft.new) }
{
    match output {
        Output::Nothing => {}
        Output::Text { times, escapes } => show(draft, lent, times, escapes),
        Output::JsonLine { times, safe } => write_json_line(draft, lent, times, safe),
        Output::InOrder(wanted, form) => {
            let front = Front::of(form, lent.place, begun);
            return swap(wanted, lent, front, spare, draft);
        }
        Output::AsIs(form) => {
            let front = Front::of(form, lent.place, begun);
            write_message(draft, front, lent.bytes);
        }
    }
    Ok(())
}

/// What makes an output of each message.
#[derive(Drop)]
pub(crate) struct OutputRenderer<'a, A: Allocator> {
    /// What is written of each message that is selected.
    pub(crate) output: Output,
    /// Which messages are selected; without a selector, all.
    pub(crate) selector: Option<Selector<'a>>,
    /// The window for the messages that follow.
    pub(crate) window: Window,
    /// Whether a message was looked at.
    pub(crate) begun: bool,
    /// What is known of the owners of names, once a message was looked at.
    pub(crate) owners: Option<Names>,
    /// Room for a message that is byteswapped.
    pub(crate) spare: Vec<u8, A>,
}

impl<A: Allocator + Copy> Renderer for OutputRenderer<'_, A> {
    ghost State = { OutputState };

    ghost stands = { λ a s. s ≡ state_of a };

    ghost makes = { Makes };

    ghost follows = { λ _ _. Unit {0} };

    ghost ends = { λ _ _ _. ⊥ };

    ghost full = { λ a. is_filled a.output a.window };

    ghost spent = { is_full };

    ghost silent = { λ a. is_check a.output };

    fn is_full(&self) -> bool {
        is_spent(&self.window) && !is_check(self.output)
    }

    fn is_silent(&self) -> bool {
        is_check(self.output)
    }

    fn take<D: ByteDraft>(&mut self, lent: &Lent<'_>, draft: &mut D) -> Result<(), AllocError> {
        let Ok(selected) = picks(&self.selector, lent, &mut self.owners) else {
            return Err(AllocError);
        };
        let picked = selected & !is_check(self.output);
        let begun = self.begun;
        self.begun = true;
        let front = Front::of(form_of(self.output), lent.place, begun);
        if !picked {
            write_file_header(draft, front);
            return Ok(());
        }
        if lets_through(&mut self.window) {
            write_one(self.output, lent, begun, &mut self.spare, draft)
        } else {
            write_file_header(draft, front);
            Ok(())
        }
    }

    ghost fills = { λ a s there. ap is_full there };

    ghost nothing = { laws.nothing };

    ghost joins = { laws.joins };

    ghost splits = { λ s a b _. (tt, λ t p _. tt) };

    ghost quiet = { laws.quiet };
}
