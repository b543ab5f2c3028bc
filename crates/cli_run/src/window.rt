//! A window over the messages that a command selects, as they come.
ghost use Rattle.std.specs.Prelude.{◌≡◌, ℕ, List, [], ◌∷◌};
ghost use Rattle.cli_run.specs.Output.{after, is_spent, text_if, written};

use cli_options::Window;

/// Whether the window lets the next text through. It is then the window for those after it.
pub(crate) fn lets_through(window: &mut Window) -> bool
    ensures lets { (text : List ℕ) → written window.old (text ∷ []) ≡ text_if result text }
    ensures after { window.new ≡ after window.old 1 }
{
    if window.skip > 0 {
        window.skip -= 1;
        return false;
    }
    match window.limit {
        None => true,
        Some(0) => false,
        Some(left) => {
            window.limit = Some(left - 1);
            true
        }
    }
}

/// Whether nothing more is wanted under the window: it lets no text through, and the rest of the
/// input is not to be checked.
pub(crate) fn is_spent(window: &Window) -> bool
    ensures { result ≡ is_spent window.now }
{
    match window.limit {
        None => false,
        Some(0) => !window.checks_rest,
        Some(_) => false,
    }
}
