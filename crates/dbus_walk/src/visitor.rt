//! What takes the values that a walk comes to.
#![tactic(auto)]

ghost use Rattle.std.specs.Prelude.{◌≡◌, ℕ, ◌+◌, ◌<◌, ◌≤◌, ◌∷◌, ◌⊎◌, List, [], ◌++◌, length, take, drop, slice_index, Bool, true, false, IfOk};
ghost use Rattle.dbus_texts.specs.Kinds.{IsKind};
ghost use Rattle.dbus_texts.specs.Types.{TypeTree, sigs};
ghost use Rattle.dbus_texts.specs.declared.text_kind.TextKind.TheVariants.{Single};
ghost use Rattle.dbus_types.specs.Alignments.{alignment_of};
ghost use Rattle.dbus_types.specs.SignatureCodes.{first_code};
ghost use Rattle.dbus_value_model.specs.Bytes.{gap_to};
ghost use Rattle.dbus_value_model.specs.Reading.{number_of};
ghost use Rattle.dbus_value_model.specs.declared.order.Order.{Order};
ghost use Rattle.dbus_value_model.specs.Spelling.{spellings};
ghost use Rattle.dbus_value_model.specs.Values.{ValueTree, ValueTrees, IsWellFormed, type_of, types_of, value_trees};
ghost use Rattle.dbus_walk.specs.Containers.{number_width, IsOf, inside, parts, is_none};
ghost use Rattle.dbus_walk.specs.Standing.{StandsAt, StandsThere};
ghost use Rattle.dbus_walk.specs.declared.container.Container.{Container};
ghost use Rattle.dbus_walk.specs.declared.container.Container.TheVariants.{Array, Variant};

use crate::container::Container;
use crate::spot::{MessageBytes, Run, Spot};
use dbus_value_model::Order;

/// What takes the values that a walk comes to, and gathers something of them.
///
/// Each method is handed a value in its bytes, and what was gathered of those before it, or is told
/// what is around values. Its relations say what each of them gathers, and its three laws say that
/// this adds up: to what is gathered of several values, and of a container.
pub trait Visitor {
    /// What it gathers of values.
    type Many: Drop;

    /// Why it stops the walk.
    type Stop: Drop;

    // It can take the values of a message of this number of bytes.
    ghost ready: { Self → ℕ → Type 0 };

    // It takes arrays at one stroke, and not element by element, if their elements' type begins
    // with this code, and the elements have this number of bytes each if they are numbers, or else
    // 0.
    ghost strokes: { ℕ → ℕ → Bool };

    // What it gathers of a value at an offset: what was gathered before it, and after.
    ghost one: { Self → Self.Many → Order → ℕ → ValueTree → Self.Many → Self → Type 0 };

    // What it gathers of values that follow one another from an offset on.
    ghost many: { Self → Self.Many → Order → ℕ → List ValueTree → Self.Many → Self → Type 0 };

    // A container opens: what was gathered before it, and what is gathered of its parts at first.
    ghost opens: { Self → Self.Many → Order → ℕ → ValueTree → Self.Many → Self → Type 0 };

    // A container closes: what was gathered before it, what was gathered of its parts, and what is
    // gathered after it.
    ghost closes: { Self → Self.Many → Self.Many → ValueTree → Self.Many → Self → Type 0 };

    // A part comes next, the first one or a later one.
    ghost parted: { Self → Bool → Self → Type 0 };

    /// Whether it takes an array at one stroke, by `whole_array`, and not element by element: by
    /// the first code of its elements' type, and by how many bytes each number has, or 0 if the
    /// elements are no numbers.
    fn at_one_stroke(code: u8, size: u8) -> bool
        ensures { result ≡ strokes code size };

    /// Takes a number of `size` bytes, which begins at `start`.
    fn number(
        &mut self,
        gathered: &mut Self::Many,
        source: &MessageBytes<'_>,
        spot: &Spot<'_>,
        start: usize,
        size: u8,
    ) -> Result<(), Self::Stop>
        requires ready { ready self.old (length source.now.bytes.now) }
        requires stands { StandsThere source.now spot.now }
        requires some { 0 < size }
        requires wide { (t : TypeTree) → first_code t ≡ slice_index spot.now.types.now 0 →
            size ≡ number_width t }
        requires begins { start ≡ spot.now.at + gap_to size spot.now.at }
        ensures ready { ready self.new (length source.now.bytes.now) }
        ensures takes { (v : ValueTree) (rest : List ℕ) → StandsAt source.now spot.now v rest →
            IfOk result (λ _. one self.old gathered.old source.now.order spot.now.at v gathered.new self.new) };

    /// Takes a STRING or an OBJECT_PATH of `size` bytes. Its length is at `start`.
    fn long_text(
        &mut self,
        gathered: &mut Self::Many,
        source: &MessageBytes<'_>,
        spot: &Spot<'_>,
        start: usize,
        size: usize,
    ) -> Result<(), Self::Stop>
        requires ready { ready self.old (length source.now.bytes.now) }
        requires stands { StandsThere source.now spot.now }
        requires code { (slice_index spot.now.types.now 0 ≡ 115) ⊎ (slice_index spot.now.types.now 0 ≡ 111) }
        requires begins { start ≡ spot.now.at + gap_to 4 spot.now.at }
        requires counts { size ≡ number_of source.now.order (take 4 (drop start source.now.bytes.now)) }
        ensures ready { ready self.new (length source.now.bytes.now) }
        ensures takes { (v : ValueTree) (rest : List ℕ) → StandsAt source.now spot.now v rest →
            IfOk result (λ _. one self.old gathered.old source.now.order spot.now.at v gathered.new self.new) };

    /// Takes a SIGNATURE of `size` bytes. Its length is where it begins.
    fn short_text(
        &mut self,
        gathered: &mut Self::Many,
        source: &MessageBytes<'_>,
        spot: &Spot<'_>,
        size: usize,
    ) -> Result<(), Self::Stop>
        requires ready { ready self.old (length source.now.bytes.now) }
        requires stands { StandsThere source.now spot.now }
        requires code { slice_index spot.now.types.now 0 ≡ 103 }
        requires counts { size ≡ slice_index source.now.bytes.now spot.now.at }
        ensures ready { ready self.new (length source.now.bytes.now) }
        ensures takes { (v : ValueTree) (rest : List ℕ) → StandsAt source.now spot.now v rest →
            IfOk result (λ _. one self.old gathered.old source.now.order spot.now.at v gathered.new self.new) };

    /// Takes an array at one stroke.
    fn whole_array(
        &mut self,
        gathered: &mut Self::Many,
        source: &MessageBytes<'_>,
        spot: &Spot<'_>,
        run: Run,
    ) -> Result<(), Self::Stop>
        requires ready { ready self.old (length source.now.bytes.now) }
        requires stands { StandsThere source.now spot.now }
        requires code { slice_index spot.now.types.now 0 ≡ 97 }
        requires stroke { strokes (slice_index spot.now.types.now 1) run.size ≡ true }
        requires wide { (t : TypeTree) → first_code t ≡ slice_index spot.now.types.now 1 →
            run.size ≡ number_width t }
        requires begins { run.start ≡ spot.now.at + gap_to 4 spot.now.at }
        requires parts { (t : TypeTree) → first_code t ≡ slice_index spot.now.types.now 1 →
            run.first ≡ run.start + 4 + gap_to (alignment_of t) (run.start + 4) }
        requires ends { run.end ≡
            run.first + number_of source.now.order (take 4 (drop run.start source.now.bytes.now)) }
        ensures ready { ready self.new (length source.now.bytes.now) }
        ensures takes { (v : ValueTree) (rest : List ℕ) → StandsAt source.now spot.now v rest →
            IfOk result (λ _. one self.old gathered.old source.now.order spot.now.at v gathered.new self.new) };

    /// Opens an array whose elements come one by one. Its length is at `start`.
    fn open_array(
        &mut self,
        gathered: &Self::Many,
        source: &MessageBytes<'_>,
        spot: &Spot<'_>,
        start: usize,
    ) -> Result<Self::Many, Self::Stop>
        requires ready { ready self.old (length source.now.bytes.now) }
        requires stands { StandsThere source.now spot.now }
        requires code { slice_index spot.now.types.now 0 ≡ 97 }
        requires listed { (t : TypeTree) → first_code t ≡ slice_index spot.now.types.now 1 →
            strokes (slice_index spot.now.types.now 1) (number_width t) ≡ false }
        requires begins { start ≡ spot.now.at + gap_to 4 spot.now.at }
        ensures ready { ready self.new (length source.now.bytes.now) }
        ensures takes { (v : ValueTree) (rest : List ℕ) → StandsAt source.now spot.now v rest →
            IfOk result (λ r. opens self.old gathered.now source.now.order spot.now.at v r self.new) };

    /// Opens a variant, a struct or a dict entry of a message of `length` bytes. `types` are those
    /// of its parts. A variant's signature begins at `start`, or the first part of another.
    fn open(
        &mut self,
        gathered: &Self::Many,
        kind: Container,
        types: &[u8],
        start: usize,
        length: usize,
    ) -> Result<Self::Many, Self::Stop>
        requires ready { ready self.old length }
        requires kind { kind ≡ Array → ⊥ }
        requires single { kind ≡ Variant → IsKind Single types.now }
        requires within { start ≤ length }
        ensures ready { ready self.new length }
        ensures takes { (order : Order) (at : ℕ) (v : ValueTree) → IsOf kind v →
            sigs (types_of (parts v)) ≡ types.now → start ≡ at + gap_to (alignment_of (type_of v)) at →
            IfOk result (λ r. opens self.old gathered.now order at v r self.new) };

    /// Closes a container, of whose parts this was gathered.
    fn close(
        &mut self,
        gathered: &mut Self::Many,
        kind: Container,
        held: Self::Many,
        length: usize,
    ) -> Result<(), Self::Stop>
        requires ready { ready self.old length }
        ensures ready { ready self.new length }
        ensures takes { (v : ValueTree) → IsOf kind v →
            IfOk result (λ _. closes self.old gathered.old held v gathered.new self.new) };

    /// Says that a part of a container, or one of several values, comes next.
    fn part(&mut self, is_first: bool, length: usize)
        requires ready { ready self.old length }
        ensures ready { ready self.new length }
        ensures takes { parted self.old is_first self.new };

    /// Whether it wants no more: of values that follow it gathers nothing, and they may be passed
    /// over. If it does not know, it may return false.
    #[inline]
    fn wants_no_more(&self, gathered: &Self::Many) -> bool
        ensures values { result ≡ true → (order : Order) (at depth : ℕ) (v : ValueTree) → IsWellFormed depth v →
            one self.now gathered.now order at v gathered.now self.now }
        ensures parts { result ≡ true → (is_first : Bool) → parted self.now is_first self.now }
    {
        false
    }

    // No values change nothing.
    ghost none: { (s : Self) (m : Self.Many) (order : Order) (at : ℕ) → many s m order at [] m s };

    // Values, and one value more.
    ghost more: { (s before between after : Self) (m gathered later : Self.Many)
        (order : Order) (at place : ℕ) (done : List ValueTree) (v : ValueTree) →
        many s m order at done gathered before → parted before (is_none done) between →
        place ≡ at + length (spellings order at (value_trees done)) →
        one between gathered order place v later after →
        many s m order at (done ++ v ∷ []) later after };

    // A container: its parts, between its opening and its closing.
    ghost whole: { (s opened filled after : Self) (m none held later : Self.Many)
        (kind : Container) (order : Order) (at : ℕ) (v : ValueTree) (xs : List ValueTree) →
        IsOf kind v → opens s m order at v none opened → parts v ≡ value_trees xs →
        many opened none order (inside order at v) xs held filled →
        closes filled m held v later after → one s m order at v later after };
}

/// Says that a part comes next. The two calls apart let the compiler write each by itself.
#[inline(always)]
pub(crate) fn next_part<V: Visitor>(visitor: &mut V, is_first: bool, length: usize)
    requires ready { V.ready visitor.old length }
    ensures ready { V.ready visitor.new length }
    ensures takes { V.parted visitor.old is_first visitor.new }
{
    if is_first {
        visitor.part(true, length);
    } else {
        visitor.part(false, length);
    }
}
