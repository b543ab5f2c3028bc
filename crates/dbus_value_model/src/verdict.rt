//! What is found of the parts of values, and of several together.
#![tactic(auto)]

ghost use Rattle.std.specs.Prelude.{◌≡◌};
ghost use Rattle.dbus_value_model.specs.Verdicts.{earlier};

/// What is found of the parts of values: the first of these cases that holds of any part.
#[derive(Clone, Copy)]
pub enum Verdict {
    /// More arrays, structs and variants are open at once than may be.
    TooDeep,
    /// A part has no type that fits its place.
    Mixed,
    /// A text is not of its kind.
    Misnamed,
    /// Every part is well formed.
    Sound,
}

/// What is found of two values together.
pub fn earlier(one: Verdict, other: Verdict) -> Verdict
    ensures { result ≡ earlier one other }
{
    match one {
        Verdict::TooDeep => one,
        Verdict::Mixed => match other {
            Verdict::TooDeep => other,
            _ => one,
        },
        Verdict::Misnamed => match other {
            Verdict::Sound => one,
            _ => other,
        },
        Verdict::Sound => other,
    }
}
