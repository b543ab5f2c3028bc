//! Names in the order of their map.
#![tactic(auto)]

ghost use Rattle.std.specs.Prelude.{refl};
ghost use Rattle.std.specs.Cmp.{partial_order_from_agreeing_total};
ghost use Rattle.std.specs.Ordering.{as_partial_cmp};
ghost use Rattle.dbus_count.specs.NameOrder.{name_order, name_order_total, name_ties};

use std::cmp::Ordering;

/// A name that is counted. Shorter names come first, since most names differ in length; of those
/// that are as long, the one whose bytes come first.
#[derive(Drop, PartialEq, Eq)]
pub(crate) struct Name(pub(crate) String);

impl PartialOrd for Name {
    ghost partial_cmp = { as_partial_cmp name_order };

    ghost laws = { partial_order_from_agreeing_total name_order name_order_total (λ a b. refl) name_ties };

    fn partial_cmp(&self, other: &Name) -> Option<Ordering> {
        Some(self.cmp(other))
    }
}

impl Ord for Name {
    ghost cmp = { name_order };

    ghost total = { name_order_total };

    ghost matches_partial_cmp = { λ a b. refl };

    ghost matches_eq = { name_ties };

    fn cmp(&self, other: &Name) -> Ordering {
        match self.0.as_bytes().len().cmp(&other.0.as_bytes().len()) {
            Ordering::Equal => self.0.cmp(&other.0),
            unequal => unequal,
        }
    }
}
