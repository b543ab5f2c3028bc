//! Values of any type, handed to a visitor in place, along their signature. They are there: nothing
//! is validated. Each call hands on what begins at its spot, which the visitor adds to what it
//! gathered; one that stops ends the walk. D-Bus Specification, "Marshaling (Wire Format)".
#![tactic(auto)]

ghost use Rattle.std.specs.Prelude.{◌≡◌, ℕ, ◌+◌, ◌<◌, ◌≤◌, ◌⊎◌, List, length, IfOk};
ghost use Rattle.dbus_texts.specs.Kinds.{IsKind};
ghost use Rattle.dbus_texts.specs.declared.text_kind.TextKind.TheVariants.{Single};
ghost use Rattle.dbus_types.specs.SignatureCodes.{AreLengths};
ghost use Rattle.dbus_value_model.specs.Bytes.{gap_to};
ghost use Rattle.dbus_value_model.specs.Values.{ValueTree, ValueTrees, StructValue, VariantValue, value_trees};
ghost use Rattle.dbus_walk.specs.Containers.{IsOf, inside, parts, IsVariantAt, IsArrayAt, IsStructAt, IsEntryAt, IsRunAt};
ghost use Rattle.dbus_walk.specs.declared.container.Container.TheVariants.{Struct, Entry};
ghost use Rattle.dbus_walk.specs.Standing.{IsRow, FieldsStandAt, StandsAt, StandsThere, AllStandAt, AllStandThere, ElementsStandAt, ElementsStandThere, end_of, end_of_all};

use crate::container::Container;
use crate::layouts::layout;
use crate::rows::{known_row, row_of};
use crate::spot::{Layout, MessageBytes, Run, Spot};
use crate::visitor::{Visitor, next_part};
use dbus_types::lengths_in;

/// Walks over the value at a spot, of which the visitor gathers something: the offset after it.
///
/// `Err` if the visitor stops, with the reason that it gives.
#[inline(always)]
#[tactic(auto, using(crate::proofs::Together::no_row))]
pub fn walk_value<V: Visitor>(
    visitor: &mut V,
    gathered: &mut V::Many,
    source: &MessageBytes<'_>,
    spot: &Spot<'_>,
) -> Result<usize, V::Stop>
    requires ready { V.ready visitor.old (length source.now.bytes.now) }
    requires stands { StandsThere source.now spot.now }
    requires noted { AreLengths spot.now.types.now spot.now.lengths.now }
    ensures ready { V.ready visitor.new (length source.now.bytes.now) }
    ensures walked { (v : ValueTree) (rest : List ℕ) → StandsAt source.now spot.now v rest →
        IfOk result (λ after. V.one visitor.old gathered.old source.now.order spot.now.at v gathered.new visitor.new ×
        (after ≡ end_of source.now spot.now v)) }
{
    let mut here = *spot;
    value(visitor, gathered, source, &mut here, 0)?;
    Ok(here.at)
}

/// The value at a spot, which moves to its end. `row` is as [`row_of`] has it, or 0: not known.
#[cycle(walk)]
#[inline(always)]
fn value<V: Visitor>(
    visitor: &mut V,
    gathered: &mut V::Many,
    source: &MessageBytes<'_>,
    spot: &mut Spot<'_>,
    row: usize,
) -> Result<(), V::Stop>
    requires ready { V.ready visitor.old (length source.now.bytes.now) }
    requires stands { StandsThere source.now spot.old }
    requires noted { AreLengths spot.old.types.now spot.old.lengths.now }
    requires together { IsRow spot.old.types.now spot.old.lengths.now row }
    ensures ready { V.ready visitor.new (length source.now.bytes.now) }
    ensures walked { (v : ValueTree) (rest : List ℕ) → StandsAt source.now spot.old v rest →
        IfOk result (λ _. V.one visitor.old gathered.old source.now.order spot.old.at v gathered.new visitor.new ×
        (spot.new.at ≡ end_of source.now spot.old v)) }
{
    match layout(source, spot) {
        Layout::Number { start, size } => {
            visitor.number(gathered, source, spot, start, size)?;
            spot.at = start + usize::from(size);
            Ok(())
        }
        Layout::LongText { start, size } => {
            visitor.long_text(gathered, source, spot, start, size)?;
            spot.at = start + 4 + size + 1;
            Ok(())
        }
        Layout::ShortText { size } => {
            visitor.short_text(gathered, source, spot, size)?;
            spot.at = spot.at + 1 + size + 1;
            Ok(())
        }
        Layout::Variant { types, at } => { variant(visitor, gathered, source, spot, types, at) }
        Layout::Array(run) => {
            array(visitor, gathered, source, spot, run)?;
            spot.at = run.end;
            Ok(())
        }
        Layout::Struct { start } => structure(visitor, gathered, source, spot, start, row),
        Layout::Entry { start } => entry(visitor, gathered, source, spot, start),
    }
}

/// A variant, by the type of what it holds, and where that begins. The spot moves to its end.
#[cycle(walk)]
#[inline(always)]
fn variant<V: Visitor>(
    visitor: &mut V,
    gathered: &mut V::Many,
    source: &MessageBytes<'_>,
    spot: &mut Spot<'_>,
    types: &[u8],
    at: usize,
) -> Result<(), V::Stop>
    requires ready { V.ready visitor.old (length source.now.bytes.now) }
    requires stands { StandsThere source.now spot.old }
    requires laid { (v : ValueTree) (rest : List ℕ) → StandsAt source.now spot.old v rest →
        IsVariantAt source.now spot.old v rest types.now at }
    ensures ready { V.ready visitor.new (length source.now.bytes.now) }
    ensures walked { (v : ValueTree) (rest : List ℕ) → StandsAt source.now spot.old v rest →
        IfOk result (λ _. V.one visitor.old gathered.old source.now.order spot.old.at v gathered.new visitor.new ×
        (spot.new.at ≡ end_of source.now spot.old v)) }
{
    let mut held = Spot {
        at,
        types,
        lengths: &[1],
        depth_left: spot.depth_left - 1,
    };
    if types.len() == 1 {
        let walked = variant_of(visitor, gathered, source, &mut held, spot.at);
        spot.at = held.at;
        return walked;
    }
    let walked = noted_variant(visitor, gathered, source, &mut held, spot.at);
    spot.at = held.at;
    walked
}

/// A variant from `start` on, whose type has several bytes: the lengths of its types are noted.
#[cycle(walk)]
#[inline(never)]
fn noted_variant<V: Visitor>(
    visitor: &mut V,
    gathered: &mut V::Many,
    source: &MessageBytes<'_>,
    held: &mut Spot<'_>,
    start: usize,
) -> Result<(), V::Stop>
    requires ready { V.ready visitor.old (length source.now.bytes.now) }
    requires stands { StandsThere source.now held.old }
    requires single { IsKind Single held.old.types.now }
    requires begins { start ≤ length source.now.bytes.now }
    ensures ready { V.ready visitor.new (length source.now.bytes.now) }
    ensures walked { (x : ValueTree) (rest : List ℕ) → StandsAt source.now held.old x rest →
        held.old.at ≡ inside source.now.order start (VariantValue x) →
        IfOk result (λ _. V.one visitor.old gathered.old source.now.order start (VariantValue x) gathered.new visitor.new ×
        (held.new.at ≡ end_of source.now held.old x)) }
{
    let mut table = [0; 255];
    let mut noted = Spot {
        lengths: lengths_in(held.types, &mut table),
        ..*held
    };
    let walked = variant_of(visitor, gathered, source, &mut noted, start);
    held.at = noted.at;
    walked
}

/// A variant that begins at `start`, by what it holds. The spot of that moves to its end.
#[cycle(walk)]
fn variant_of<V: Visitor>(
    visitor: &mut V,
    gathered: &mut V::Many,
    source: &MessageBytes<'_>,
    held: &mut Spot<'_>,
    start: usize,
) -> Result<(), V::Stop>
    requires ready { V.ready visitor.old (length source.now.bytes.now) }
    requires stands { StandsThere source.now held.old }
    requires single { IsKind Single held.old.types.now }
    requires noted { AreLengths held.old.types.now held.old.lengths.now }
    requires begins { start ≤ length source.now.bytes.now }
    ensures ready { V.ready visitor.new (length source.now.bytes.now) }
    ensures walked { (x : ValueTree) (rest : List ℕ) → StandsAt source.now held.old x rest →
        held.old.at ≡ inside source.now.order start (VariantValue x) →
        IfOk result (λ _. V.one visitor.old gathered.old source.now.order start (VariantValue x) gathered.new visitor.new ×
        (held.new.at ≡ end_of source.now held.old x)) }
{
    let length = source.bytes.len();
    let mut many = visitor.open(gathered, Container::Variant, held.types, start, length)?;
    visitor.part(true, length);
    let walked = value(visitor, &mut many, source, held, 0);
    if walked.is_err() {
        return walked;
    }
    visitor.close(gathered, Container::Variant, many, length)?;
    walked
}

/// An array.
#[cycle(walk)]
#[inline(always)]
fn array<V: Visitor>(
    visitor: &mut V,
    gathered: &mut V::Many,
    source: &MessageBytes<'_>,
    spot: &Spot<'_>,
    run: Run,
) -> Result<(), V::Stop>
    requires ready { V.ready visitor.old (length source.now.bytes.now) }
    requires stands { StandsThere source.now spot.now }
    requires noted { AreLengths spot.now.types.now spot.now.lengths.now }
    requires found { IsRunAt source.now spot.now run }
    requires laid { (v : ValueTree) (rest : List ℕ) → StandsAt source.now spot.now v rest →
        IsArrayAt source.now spot.now v rest run }
    ensures ready { V.ready visitor.new (length source.now.bytes.now) }
    ensures walked { (v : ValueTree) (rest : List ℕ) → StandsAt source.now spot.now v rest →
        IfOk result (λ _. V.one visitor.old gathered.old source.now.order spot.now.at v gathered.new visitor.new ×
        (run.end ≡ end_of source.now spot.now v)) }
{
    if V::at_one_stroke(spot.types[1], run.size) {
        visitor.whole_array(gathered, source, spot, run)?;
        return Ok(());
    }
    let mut many = visitor.open_array(gathered, source, spot, run.start)?;
    let held = Spot {
        at: run.first,
        types: &spot.types[1..],
        lengths: &spot.lengths[1..],
        depth_left: spot.depth_left - 1,
    };
    elements(visitor, &mut many, source, &held, run.end)?;
    visitor.close(gathered, Container::Array, many, source.bytes.len())?;
    Ok(())
}

/// Elements of one type, up to `end`, or as many as the visitor wants.
#[cycle(walk)]
fn elements<V: Visitor>(
    visitor: &mut V,
    gathered: &mut V::Many,
    source: &MessageBytes<'_>,
    spot: &Spot<'_>,
    end: usize,
) -> Result<(), V::Stop>
    requires ready { V.ready visitor.old (length source.now.bytes.now) }
    requires stand { ElementsStandThere source.now spot.now end }
    requires noted { AreLengths spot.now.types.now spot.now.lengths.now }
    ensures ready { V.ready visitor.new (length source.now.bytes.now) }
    ensures walked { (vs : ValueTrees) (rest : List ℕ) → ElementsStandAt source.now spot.now end vs rest →
        IfOk result (λ _. (xs : List ValueTree) × (vs ≡ value_trees xs) ×
        V.many visitor.old gathered.old source.now.order spot.now.at xs gathered.new visitor.new) }
{
    // An empty array's type is not looked at.
    if spot.at >= end {
        return Ok(());
    }
    let row = row_of(spot.types, spot.lengths);
    let mut place = spot.at;
    let mut is_first = true;
    while place < end {
        if visitor.wants_no_more(gathered) {
            return Ok(());
        }
        next_part(visitor, is_first, source.bytes.len());
        let mut next = Spot {
            at: place,
            types: spot.types,
            lengths: spot.lengths,
            depth_left: spot.depth_left,
        };
        let walked = value(visitor, gathered, source, &mut next, row);
        if walked.is_err() {
            return walked;
        }
        place = next.at;
        is_first = false;
    }
    Ok(())
}

/// A dict entry, by where its key begins. The spot moves to its end.
#[cycle(walk)]
#[inline(always)]
fn entry<V: Visitor>(
    visitor: &mut V,
    gathered: &mut V::Many,
    source: &MessageBytes<'_>,
    spot: &mut Spot<'_>,
    start: usize,
) -> Result<(), V::Stop>
    requires ready { V.ready visitor.old (length source.now.bytes.now) }
    requires stands { StandsThere source.now spot.old }
    requires noted { AreLengths spot.old.types.now spot.old.lengths.now }
    requires long { 2 ≤ length spot.old.types.now }
    requires laid { (v : ValueTree) (rest : List ℕ) → StandsAt source.now spot.old v rest →
        IsEntryAt source.now spot.old v rest start }
    ensures ready { V.ready visitor.new (length source.now.bytes.now) }
    ensures walked { (v : ValueTree) (rest : List ℕ) → StandsAt source.now spot.old v rest →
        IfOk result (λ _. V.one visitor.old gathered.old source.now.order spot.old.at v gathered.new visitor.new ×
        (spot.new.at ≡ end_of source.now spot.old v)) }
{
    let end = spot.types.len() - 1;
    let mut held = Spot {
        at: start,
        types: &spot.types[1..end],
        lengths: &spot.lengths[1..end],
        depth_left: spot.depth_left,
    };
    let walked = whole(visitor, gathered, source, &mut held, Container::Entry);
    spot.at = held.at;
    walked
}

/// A struct, by where its first field begins. The spot moves to its end.
#[cycle(walk)]
#[inline(always)]
fn structure<V: Visitor>(
    visitor: &mut V,
    gathered: &mut V::Many,
    source: &MessageBytes<'_>,
    spot: &mut Spot<'_>,
    start: usize,
    row: usize,
) -> Result<(), V::Stop>
    requires ready { V.ready visitor.old (length source.now.bytes.now) }
    requires stands { StandsThere source.now spot.old }
    requires noted { AreLengths spot.old.types.now spot.old.lengths.now }
    requires together { IsRow spot.old.types.now spot.old.lengths.now row }
    requires long { 2 ≤ length spot.old.types.now }
    requires deep { 0 < spot.old.depth_left }
    requires laid { (v : ValueTree) (rest : List ℕ) → StandsAt source.now spot.old v rest →
        IsStructAt source.now spot.old v rest start }
    ensures ready { V.ready visitor.new (length source.now.bytes.now) }
    ensures walked { (v : ValueTree) (rest : List ℕ) → StandsAt source.now spot.old v rest →
        IfOk result (λ _. V.one visitor.old gathered.old source.now.order spot.old.at v gathered.new visitor.new ×
        (spot.new.at ≡ end_of source.now spot.old v)) }
{
    let row = known_row(spot.types, spot.lengths, row);
    if row < 2 {
        return alone(visitor, gathered, source, spot, start);
    }
    together(visitor, gathered, source, spot, start, row)
}

/// A struct walked by itself, by where its first field begins. The spot moves to its end.
#[cycle(walk)]
#[inline(always)]
fn alone<V: Visitor>(
    visitor: &mut V,
    gathered: &mut V::Many,
    source: &MessageBytes<'_>,
    spot: &mut Spot<'_>,
    start: usize,
) -> Result<(), V::Stop>
    requires ready { V.ready visitor.old (length source.now.bytes.now) }
    requires stands { StandsThere source.now spot.old }
    requires noted { AreLengths spot.old.types.now spot.old.lengths.now }
    requires long { 2 ≤ length spot.old.types.now }
    requires deep { 0 < spot.old.depth_left }
    requires laid { (v : ValueTree) (rest : List ℕ) → StandsAt source.now spot.old v rest →
        IsStructAt source.now spot.old v rest start }
    ensures ready { V.ready visitor.new (length source.now.bytes.now) }
    ensures walked { (v : ValueTree) (rest : List ℕ) → StandsAt source.now spot.old v rest →
        IfOk result (λ _. V.one visitor.old gathered.old source.now.order spot.old.at v gathered.new visitor.new ×
        (spot.new.at ≡ end_of source.now spot.old v)) }
{
    let end = spot.types.len() - 1;
    let mut held = Spot {
        at: start,
        types: &spot.types[1..end],
        lengths: &spot.lengths[1..end],
        depth_left: spot.depth_left - 1,
    };
    let walked = whole(visitor, gathered, source, &mut held, Container::Struct);
    spot.at = held.at;
    walked
}

/// The outermost of `row` structs that all begin at `start`. The spot moves to their end.
#[cycle(walk)]
#[inline(always)]
fn together<V: Visitor>(
    visitor: &mut V,
    gathered: &mut V::Many,
    source: &MessageBytes<'_>,
    spot: &mut Spot<'_>,
    start: usize,
    row: usize,
) -> Result<(), V::Stop>
    requires ready { V.ready visitor.old (length source.now.bytes.now) }
    requires stands { StandsThere source.now spot.old }
    requires noted { AreLengths spot.old.types.now spot.old.lengths.now }
    requires together { IsRow spot.old.types.now spot.old.lengths.now row }
    requires long { 2 ≤ length spot.old.types.now }
    requires deep { 0 < spot.old.depth_left }
    requires laid { (v : ValueTree) (rest : List ℕ) → StandsAt source.now spot.old v rest →
        IsStructAt source.now spot.old v rest start }
    ensures ready { V.ready visitor.new (length source.now.bytes.now) }
    ensures walked { (v : ValueTree) (rest : List ℕ) → StandsAt source.now spot.old v rest →
        IfOk result (λ _. V.one visitor.old gathered.old source.now.order spot.old.at v gathered.new visitor.new ×
        (spot.new.at ≡ end_of source.now spot.old v)) }
{
    let mut held = Spot {
        at: start,
        types: spot.types,
        lengths: spot.lengths,
        depth_left: spot.depth_left - 1,
    };
    let walked = nested(visitor, gathered, source, &mut held, 0, row);
    spot.at = held.at;
    walked
}

/// A struct or a dict entry, by its parts. The spot, at which they begin, moves to their end.
#[cycle(walk)]
#[inline(always)]
fn whole<V: Visitor>(
    visitor: &mut V,
    gathered: &mut V::Many,
    source: &MessageBytes<'_>,
    spot: &mut Spot<'_>,
    kind: Container,
) -> Result<(), V::Stop>
    requires ready { V.ready visitor.old (length source.now.bytes.now) }
    requires stand { AllStandThere source.now spot.old }
    requires noted { AreLengths spot.old.types.now spot.old.lengths.now }
    requires kind { (kind ≡ Struct) ⊎ (kind ≡ Entry) }
    ensures ready { V.ready visitor.new (length source.now.bytes.now) }
    ensures walked { (at : ℕ) (v : ValueTree) (rest : List ℕ) → IsOf kind v →
        AllStandAt source.now spot.old (parts v) rest → spot.old.at ≡ inside source.now.order at v →
        IfOk result (λ _. V.one visitor.old gathered.old source.now.order at v gathered.new visitor.new ×
        (spot.new.at ≡ end_of_all source.now spot.old (parts v))) }
{
    let length = source.bytes.len();
    let mut many = visitor.open(gathered, kind, spot.types, spot.at, length)?;
    let walked = listed(visitor, &mut many, source, spot);
    // Handed on as it is, which takes no instruction.
    if walked.is_err() {
        return walked;
    }
    visitor.close(gathered, kind, many, length)?;
    walked
}

/// The parts of a struct or a dict entry. The spot, at which they begin, moves to their end.
#[cycle(walk)]
#[inline(never)]
fn listed<V: Visitor>(
    visitor: &mut V,
    gathered: &mut V::Many,
    source: &MessageBytes<'_>,
    spot: &mut Spot<'_>,
) -> Result<(), V::Stop>
    requires ready { V.ready visitor.old (length source.now.bytes.now) }
    requires stand { AllStandThere source.now spot.old }
    requires noted { AreLengths spot.old.types.now spot.old.lengths.now }
    ensures ready { V.ready visitor.new (length source.now.bytes.now) }
    ensures walked { (vs : ValueTrees) (rest : List ℕ) → AllStandAt source.now spot.old vs rest →
        IfOk result (λ _. ((xs : List ValueTree) × (vs ≡ value_trees xs) ×
        V.many visitor.old gathered.old source.now.order spot.old.at xs gathered.new visitor.new) ×
        (spot.new.at ≡ end_of_all source.now spot.old vs)) }
{
    spot.at = walk_values(visitor, gathered, source, spot)?;
    Ok(())
}

/// A struct within `outer` others that begin where it does. The spot, there, moves to their end.
#[cycle(walk)]
fn nested<V: Visitor>(
    visitor: &mut V,
    gathered: &mut V::Many,
    source: &MessageBytes<'_>,
    spot: &mut Spot<'_>,
    outer: usize,
    row: usize,
) -> Result<(), V::Stop>
    requires ready { V.ready visitor.old (length source.now.bytes.now) }
    requires stand { (vs : ValueTrees) × (rest : List ℕ) × FieldsStandAt source.now spot.old outer vs rest }
    requires noted { AreLengths spot.old.types.now spot.old.lengths.now }
    requires together { IsRow spot.old.types.now spot.old.lengths.now row }
    requires long { 2 + outer + outer ≤ length spot.old.types.now }
    requires deep { outer ≤ spot.old.depth_left }
    requires padded { gap_to 8 spot.old.at ≡ 0 }
    ensures ready { V.ready visitor.new (length source.now.bytes.now) }
    ensures walked { (at : ℕ) (vs : ValueTrees) (rest : List ℕ) → spot.old.at ≡ at + gap_to 8 at →
        FieldsStandAt source.now spot.old outer vs rest →
        IfOk result (λ _. V.one visitor.old gathered.old source.now.order at (StructValue vs) gathered.new visitor.new ×
        (spot.new.at ≡ end_of_all source.now spot.old vs)) }
{
    let first = outer + 1;
    let types = &spot.types[first..spot.types.len() - first];
    let length = source.bytes.len();
    let mut many = visitor.open(gathered, Container::Struct, types, spot.at, length)?;
    let walked = nested_fields(visitor, &mut many, source, spot, outer, row);
    if walked.is_err() {
        return walked;
    }
    visitor.close(gathered, Container::Struct, many, length)?;
    walked
}

/// The fields of such a struct. The spot moves to their end.
#[cycle(walk)]
#[inline(always)]
fn nested_fields<V: Visitor>(
    visitor: &mut V,
    gathered: &mut V::Many,
    source: &MessageBytes<'_>,
    spot: &mut Spot<'_>,
    outer: usize,
    row: usize,
) -> Result<(), V::Stop>
    requires ready { V.ready visitor.old (length source.now.bytes.now) }
    requires stand { (vs : ValueTrees) × (rest : List ℕ) × FieldsStandAt source.now spot.old outer vs rest }
    requires noted { AreLengths spot.old.types.now spot.old.lengths.now }
    requires together { IsRow spot.old.types.now spot.old.lengths.now row }
    requires long { 2 + outer + outer ≤ length spot.old.types.now }
    requires deep { outer ≤ spot.old.depth_left }
    requires padded { gap_to 8 spot.old.at ≡ 0 }
    ensures ready { V.ready visitor.new (length source.now.bytes.now) }
    ensures walked { (vs : ValueTrees) (rest : List ℕ) → FieldsStandAt source.now spot.old outer vs rest →
        IfOk result (λ _. ((xs : List ValueTree) × (vs ≡ value_trees xs) ×
        V.many visitor.old gathered.old source.now.order spot.old.at xs gathered.new visitor.new) ×
        (spot.new.at ≡ end_of_all source.now spot.old vs)) }
{
    let first = outer + 1;
    if first < row {
        visitor.part(true, source.bytes.len());
        return nested(visitor, gathered, source, spot, first, row);
    }
    fields(visitor, gathered, source, spot, outer)
}

/// The fields of the innermost of structs that open together. The spot moves to their end.
#[cycle(walk)]
#[inline(never)]
fn fields<V: Visitor>(
    visitor: &mut V,
    gathered: &mut V::Many,
    source: &MessageBytes<'_>,
    spot: &mut Spot<'_>,
    outer: usize,
) -> Result<(), V::Stop>
    requires ready { V.ready visitor.old (length source.now.bytes.now) }
    requires stand { (vs : ValueTrees) × (rest : List ℕ) × FieldsStandAt source.now spot.old outer vs rest }
    requires noted { AreLengths spot.old.types.now spot.old.lengths.now }
    requires long { 2 + outer + outer ≤ length spot.old.types.now }
    requires deep { outer ≤ spot.old.depth_left }
    ensures ready { V.ready visitor.new (length source.now.bytes.now) }
    ensures walked { (vs : ValueTrees) (rest : List ℕ) → FieldsStandAt source.now spot.old outer vs rest →
        IfOk result (λ _. ((xs : List ValueTree) × (vs ≡ value_trees xs) ×
        V.many visitor.old gathered.old source.now.order spot.old.at xs gathered.new visitor.new) ×
        (spot.new.at ≡ end_of_all source.now spot.old vs)) }
{
    let first = outer + 1;
    let end = spot.types.len() - first;
    let held = Spot {
        at: spot.at,
        types: &spot.types[first..end],
        lengths: &spot.lengths[first..end],
        depth_left: spot.depth_left - outer as u8,
    };
    spot.at = walk_values(visitor, gathered, source, &held)?;
    Ok(())
}

/// Walks over values one after another, one of each type that the signature at the spot has, of
/// which the visitor gathers something: the offset after them.
///
/// `Err` if the visitor stops, with the reason that it gives.
#[cycle(walk)]
#[inline(always)]
pub fn walk_values<V: Visitor>(
    visitor: &mut V,
    gathered: &mut V::Many,
    source: &MessageBytes<'_>,
    spot: &Spot<'_>,
) -> Result<usize, V::Stop>
    requires ready { V.ready visitor.old (length source.now.bytes.now) }
    requires stand { AllStandThere source.now spot.now }
    requires noted { AreLengths spot.now.types.now spot.now.lengths.now }
    ensures ready { V.ready visitor.new (length source.now.bytes.now) }
    ensures walked { (vs : ValueTrees) (rest : List ℕ) → AllStandAt source.now spot.now vs rest →
        IfOk result (λ after. ((xs : List ValueTree) × (vs ≡ value_trees xs) ×
        V.many visitor.old gathered.old source.now.order spot.now.at xs gathered.new visitor.new) ×
        (after ≡ end_of_all source.now spot.now vs)) }
{
    let mut place = spot.at;
    let mut types = spot.types;
    let mut lengths = spot.lengths;
    let mut is_first = true;
    while !types.is_empty() {
        let end = usize::from(lengths[0]);
        next_part(visitor, is_first, source.bytes.len());
        let mut next = Spot {
            at: place,
            types: &types[..end],
            lengths: &lengths[..end],
            depth_left: spot.depth_left,
        };
        value(visitor, gathered, source, &mut next, 0)?;
        place = next.at;
        is_first = false;
        types = &types[end..];
        lengths = &lengths[end..];
    }
    Ok(place)
}
