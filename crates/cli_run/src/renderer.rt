//! What is made of the messages of an input.
ghost use Rattle.std.specs.Prelude.{◌≡◌, ◌++◌, ◌∷◌, [], false, true, ℕ, Bool, IfOk, List, OnErr, length, string_bytes};
ghost use Rattle.dbus_value_model.specs.declared.order.Order.{Order};
ghost use Rattle.dbus_message_model.specs.Messages.{MessageTree};
ghost use Rattle.dbus_header.specs.MessageOutcomes.{IsWhole};
ghost use Rattle.dbus_validate.specs.Validating.{IsValidatedWhole};
ghost use Rattle.cli_run.specs.Inputs.{Placed};
ghost use Rattle.cli_run.specs.OutputWriting.{RendersOne, placed_at};

use crate::byte_draft::ByteDraft;
use crate::place::Lent;
use std::alloc::AllocError;

/// What a command makes of the messages of an input, one after the other. It knows no device.
///
/// One relation says which texts it makes of messages, from the state in which it stands before
/// them to the state after them. Its laws say that this adds up.
pub(crate) trait Renderer {
    // What its texts depend on.
    ghost State: { Type 0 };

    // It stands in this state.
    ghost stands: { Self → State → Type 0 };

    // Of these messages it makes this text, and comes from a state to another.
    ghost makes: { State → List Placed → List ℕ → State → Type 0 };

    // These messages may come after a state.
    ghost follows: { State → List Placed → Type 0 };

    // At the end it makes this text, and this note: an [`EndRenderer`] does.
    ghost ends: { State → (text note : List ℕ) → Type 0 };

    // It wants no more messages.
    ghost full: { Self → Bool };

    // In this state no more messages are wanted.
    ghost spent: { State → Bool };

    // It makes no text, so that what is told goes where its text would go.
    ghost silent: { Self → Bool };

    /// Whether it wants no more messages.
    fn is_full(&self) -> bool
        ensures { result ≡ full self.now };

    /// Whether it makes no text, as `check`.
    fn is_silent(&self) -> bool
        ensures { result ≡ silent self.now };

    /// Takes a message, and appends what it makes of it.
    ///
    /// `AllocError`: there was not enough memory, and nothing was appended. It is not to be used
    /// again.
    fn take<D: ByteDraft>(&mut self, lent: &Lent<'_>, draft: &mut D) -> Result<(), AllocError>
        requires { IsValidatedWhole lent.now.limits lent.now.bytes.now lent.now.validated }
        ensures renders { (order : Order) (m : MessageTree) →
            IsWhole lent.now.limits lent.now.bytes.now order m (length lent.now.bytes.now) →
            (s : State) → stands self.old s →
            follows s (placed_at lent.now.place order m (length lent.now.bytes.now) ∷ []) →
            RendersOne stands makes D.gains s self.new
            (placed_at lent.now.place order m (length lent.now.bytes.now)) draft.old draft.new result }
        ensures short { OnErr result (D.gains draft.old [] draft.new) }
        ensures silent { silent self.new ≡ silent self.old };

    ghost fills: { (a : Self) (s : State) → stands a s → spent s ≡ full a };

    ghost nothing: { (s : State) → makes s [] [] s };

    ghost joins: { (s t u : State) (a b : List Placed) (p q : List ℕ) →
        makes s a p t → makes t b q u → makes s (a ++ b) (p ++ q) u };

    ghost splits: { (s : State) (a b : List Placed) → follows s (a ++ b) →
        follows s a × ((t : State) (p : List ℕ) → makes s a p t → follows t b) };

    ghost quiet: { (a : Self) (s t : State) (items : List Placed) (text : List ℕ) →
        silent a ≡ true → stands a s → makes s items text t → text ≡ [] };
}

/// What makes a text at the end too, after all messages, and then a note, which is to be told. It
/// wants all messages.
pub(crate) trait EndRenderer: Renderer {
    /// Appends what it makes at the end, and returns the note.
    ///
    /// `AllocError`: there was not enough memory, and nothing was appended.
    fn finish<D: ByteDraft>(self, draft: &mut D) -> Result<String, AllocError>
        ensures ends { (s : Self.State) → Self.stands self s → IfOk result (λ note.
            (text : List ℕ) × Self.ends s text (string_bytes note) × D.gains draft.old text draft.new) }
        ensures short { OnErr result (draft.new ≡ draft.old) };

    ghost wants_all: { (a : Self) → Self.full a ≡ false };

    ghost loud: { (a : Self) → Self.silent a ≡ false };
}
