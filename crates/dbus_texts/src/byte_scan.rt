//! Scans that go along a text byte by byte.
#![tactic(auto)]

ghost use Rattle.std.specs.Prelude.{◌↔◌, ℕ, List, [], IsTrue};
ghost use Rattle.dbus_texts.specs.Quotients.{Steps, IsBreakFrom};

/// What is wanted of a text from here on.
pub trait ByteScan {
    /// What may follow.
    ghost rest: { Self → List ℕ → Type 0 };

    /// Takes one byte more, if it is allowed here; else changes nothing.
    fn step(&mut self, byte: u8) -> bool
        ensures { Steps rest self.old byte result self.new };

    /// Whether the text may end here.
    fn end(&self) -> bool
        ensures { IsTrue result ↔ rest self.now [] };
}

/// Where a text breaks that goes on from here, or `None` if it may go on so and end.
pub fn break_of<S: ByteScan + Drop>(start: S, text: &[u8]) -> Option<usize>
    requires { (more : List ℕ) × S.rest start more }
    ensures { IsBreakFrom (S.rest start) text.now result }
{
    let mut scan = start;
    for (i, byte) in text.iter().enumerate() {
        if !scan.step(*byte) {
            return Some(i);
        }
    }
    if scan.end() { None } else { Some(text.len()) }
}
