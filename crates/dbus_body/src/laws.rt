//! The law of what the calls spell. The function's contract is the law; it does nothing when it
//! runs.
#![tactic(auto)]

ghost use Rattle.std.specs.Prelude.{ℕ, List};
ghost use Rattle.dbus_value_model.specs.declared.order.Order.{Order};
ghost use Rattle.dbus_body.specs.BodyLaws.{CallsSpell};

/// What the calls append, one after another, is the spelling of the values. D-Bus Specification,
/// "Marshaling (Wire Format)".
#[tactic(auto, using(crate::proofs::Spelled::calls_spell))]
pub fn calls_spell()
    ensures { (order : Order) (front : List ℕ) → CallsSpell order front }
{}
