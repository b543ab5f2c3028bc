//! The items of values, as they are gathered.
#![tactic(auto)]

ghost use Rattle.std.specs.Prelude.{◌≡◌, ◌∷◌, []};
ghost use Rattle.dbus_flatten.specs.Flattening.{Appends, Counts};

use crate::flat_item::FlatItem;

/// Gathers an item of each value that it visits.
#[derive(Drop)]
pub(crate) struct Flattener<'o> {
    /// Where the items go, as many as it has room for.
    pub(crate) out: &'o mut [FlatItem],
    /// The place in the row of the item that is the first there.
    pub(crate) first: usize,
    /// How many items there were, also those that it had no room for.
    pub(crate) count: usize,
}

impl Flattener<'_> {
    /// One item more.
    #[inline(always)]
    pub(crate) fn push(&mut self, item: FlatItem)
        ensures { Appends self.old (item ∷ []) self.new }
    {
        let at = self.count;
        if at >= self.first && at - self.first < self.out.len() {
            self.out[at - self.first] = item;
        }
        self.count = at.saturating_add(1);
    }

    /// How many items it has gathered.
    #[inline(always)]
    pub(crate) fn total(&self) -> usize
        ensures { result ≡ self.now.count }
    {
        self.count
    }

    /// The container whose item has this place in the row holds all the items after it.
    #[inline(always)]
    pub(crate) fn count_from(&mut self, place: usize)
        ensures { Counts self.old place self.new }
    {
        if place >= self.first && place - self.first < self.out.len() {
            let within = self.count.saturating_sub(place).saturating_sub(1);
            self.out[place - self.first].number = within as u64;
        }
    }
}
