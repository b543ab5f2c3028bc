//! Laws over the definitions: what a function here ensures is a fact about the marshalling
//! relation, and it does nothing when it runs. D-Bus Specification, "Marshaling (Wire Format)".
#![tactic(auto, using(crate::proofs::ValueItemLaws::laws))]

ghost use Rattle.dbus_value_model.specs.Laws.{OneValue, OneOutcome, NotBoth, OneFault, RefusedForGood, DoneForGood, LeastPadding, NumberIsPlaceSum, ReadsSpelled, ReadsFaults};

/// At one order, depth and offset a value has one spelling, and of two values of one type neither's
/// spelling begins the other's.
pub fn one_value()
    ensures { OneValue }
{}

/// Wherever some types are wanted, every list of bytes spells values of them, or shows a fault, or
/// is partial.
pub fn one_outcome()
    ensures { OneOutcome }
{}

/// No bytes both spell the values that are wanted and show a fault.
pub fn not_both()
    ensures { NotBoth }
{}

/// A refusal has one place and one reason.
pub fn one_fault()
    ensures { OneFault }
{}

/// What is refused stays refused, whatever bytes follow.
pub fn refused_for_good()
    ensures { RefusedForGood }
{}

/// What is spelled stays spelled, whatever bytes follow.
pub fn done_for_good()
    ensures { DoneForGood }
{}

/// Padding is the least number of bytes that reaches a boundary of 1, 2, 4 or 8 bytes.
pub fn least_padding()
    ensures { LeastPadding }
{}

/// A number in a given number of bytes is the sum of its places, in either order.
pub fn number_is_place_sum()
    ensures { NumberIsPlaceSum }
{}

/// The plain reader gives a value exactly if the bytes spell it.
pub fn reads_spelled()
    ensures { ReadsSpelled }
{}

/// The plain reader gives a fault exactly if the wanted value shows it.
pub fn reads_faults()
    ensures { ReadsFaults }
{}
