//! A call that was sent.
#![tactic(auto)]

ghost use Rattle.std.specs.Prelude.{◌≡◌, ℕ, List, Option, option_map};

/// What is kept of a call that waits for its reply.
pub trait Sent: Drop {
    // Its DESTINATION.
    ghost sent_to: { Self → Option (List ℕ) };

    /// Its DESTINATION, if it has one. D-Bus Specification, "Header Fields".
    fn destination(&self) -> Option<&str>
        ensures { option_map (λ d. d.now) result ≡ sent_to self.now };
}
