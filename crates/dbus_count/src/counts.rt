//! Counts by names.
#![tactic(auto, unfolding(crate::specs::Counting::counting_of))]

ghost use Rattle.std.specs.BTreeMap.{IsOrdered};
ghost use Rattle.std.proofs.Props.{props};
ghost use Rattle.dbus_count.specs.NameOrder.{name_order};

use crate::count::Count;
use crate::name::Name;
use dbus_message_model::message_type::type_name;
use dbus_show::{Draft, StringDraft, write_kind};
use dbus_view::MessageView;
use std::alloc::{AllocError, Global};
use std::collections::BTreeMap;

/// How many messages have each name, and how many bytes these have. It holds as much memory as the
/// different names take, and a call takes time for the logarithm of their number.
///
/// ```rust
/// use dbus_count::{Counts, Form};
/// use dbus_message::MessageView;
///
/// let mut counts = Counts::new(alloc);
/// counts.add(&MessageView::of(bytes)?)?;
/// println!(rt; "{}", counts.tables(Form::Text, None)?)?;
/// ```
#[derive(Drop)]
pub struct Counts {
    pub(crate) alloc: Global,
    pub(crate) names: BTreeMap<Name, Count>,
    // Room for a name that is looked up.
    spare: Name,
    ghost ordered: { IsOrdered name_order names } by { Prim.hlevel props },
}

impl Counts {
    ghost use Rattle.std.specs.Prelude.{◌≡◌, List, ℕ, OnErr, OnOk, Some, codes, length, option_map};
    ghost use Rattle.dbus_count.specs.Counting.{CountsFirst, nothing, with_name, with_names, counting_of, member_of, named, names_of};
    ghost use Rattle.dbus_count.specs.NameOrder.{bytes_of};
    ghost use Rattle.dbus_value_model.specs.declared.order.Order.{Order};
    ghost use Rattle.dbus_message_model.specs.Messages.{MessageTree};
    ghost use Rattle.dbus_show.specs.ShownMessages.{kind_text};
    ghost use Rattle.dbus_view.specs.Views.{Views};

    /// Nothing is counted. It allocates nothing.
    pub fn new(alloc: Global) -> Counts
        ensures { (name : List ℕ) → counting_of result name ≡ nothing name }
    {
        Counts {
            alloc,
            names: BTreeMap::new(alloc),
            spare: Name(String::new(alloc)),
        }
    }

    /// Counts the message of the view under each name that it has. An allocation is made only for a
    /// name that is new, or longer than those before it. D-Bus Specification, "Header Fields".
    ///
    /// `AllocError`: an allocation failed. Then the message is counted under the names that come
    /// before the first one whose count takes memory that is not there, in the order type, sender,
    /// destination, interface, member, error; and under no other.
    pub fn add(&mut self, view: &MessageView) -> Result<(), AllocError>
        ensures counted { (order : Order) (m : MessageTree) → Views view.now order m → OnOk result ((name : List ℕ) →
            counting_of self.new name ≡ with_names (names_of m) (length view.now.bytes) name (counting_of self.old name)) }
        ensures failed { (order : Order) (m : MessageTree) → Views view.now order m → OnErr result
            (CountsFirst (names_of m) (length view.now.bytes) (counting_of self.old) (counting_of self.new)) }
    {
        let size = view.bytes().len() as u64;
        self.count_kind(view.kind(), size)?;
        self.count_name("sender ", view.sender(), size)?;
        self.count_name("destination ", view.destination(), size)?;
        self.count_name("interface ", view.interface(), size)?;
        self.count_member(view.interface(), view.member(), size)?;
        self.count_name("error ", view.error_name(), size)
    }

    // Counts a message of this size under its type.
    fn count_kind(&mut self, kind: u8, size: u64) -> Result<(), AllocError>
        ensures counted { OnOk result ((other : List ℕ) → counting_of self.new other ≡
            with_names (named (codes "type ") (Some (kind_text kind))) size other (counting_of self.old other)) }
        ensures failed { OnErr result
            (CountsFirst (named (codes "type ") (Some (kind_text kind))) size (counting_of self.old) (counting_of self.new)) }
    {
        if let Some(name) = type_name(kind) {
            return self.count_name("type ", Some(name), size);
        }
        let mut name = StringDraft::new(&mut self.spare.0);
        name.push_str("type ");
        write_kind(&mut name, kind);
        name.finish()?;
        self.count_spare(size)
    }

    // Counts a message of this size under the name, if it has one.
    fn count_name(&mut self, word: &str, name: Option<&str>, size: u64) -> Result<(), AllocError>
        ensures counted { OnOk result ((other : List ℕ) → counting_of self.new other ≡
            with_names (named word.now (option_map (λ t. t.now) name.entry)) size other (counting_of self.old other)) }
        ensures failed { OnErr result
            (CountsFirst (named word.now (option_map (λ t. t.now) name.entry)) size (counting_of self.old) (counting_of self.new)) }
    {
        let Some(name) = name else {
            return Ok(());
        };
        self.spare.0.clear();
        self.spare.0.push_str(word)?;
        self.spare.0.push_str(name)?;
        self.count_spare(size)
    }

    // Counts a message of this size under its member, if it has one.
    fn count_member(
        &mut self,
        interface: Option<&str>,
        member: Option<&str>,
        size: u64,
    ) -> Result<(), AllocError>
        ensures counted { OnOk result ((other : List ℕ) → counting_of self.new other ≡
            with_names (named (codes "member ") (member_of (option_map (λ t. t.now) interface.entry) (option_map (λ t. t.now) member.entry))) size other (counting_of self.old other)) }
        ensures failed { OnErr result
            (CountsFirst (named (codes "member ") (member_of (option_map (λ t. t.now) interface.entry) (option_map (λ t. t.now) member.entry))) size (counting_of self.old) (counting_of self.new)) }
    {
        let Some(member) = member else {
            return Ok(());
        };
        self.spare.0.clear();
        self.spare.0.push_str("member ")?;
        if let Some(interface) = interface {
            self.spare.0.push_str(interface)?;
            self.spare.0.push_str(".")?;
        }
        self.spare.0.push_str(member)?;
        self.count_spare(size)
    }

    // Counts a message of this size by the name that is spared.
    fn count_spare(&mut self, size: u64) -> Result<(), AllocError>
        ensures counted { OnOk result ((name : List ℕ) →
            counting_of self.new name ≡ with_name (bytes_of self.old.spare) size name (counting_of self.old name)) }
        ensures failed { OnErr result ((name : List ℕ) → counting_of self.new name ≡ counting_of self.old name) }
    {
        if let Some(count) = self.names.get_mut(&self.spare) {
            *count = count.with_one(size);
            return Ok(());
        }
        let none = Count {
            messages: 0,
            bytes: 0,
        };
        let name = Name(String::from_str(self.alloc, self.spare.0.as_str())?);
        self.names.insert(name, none.with_one(size))?;
        Ok(())
    }
}
