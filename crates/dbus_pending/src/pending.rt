//! The calls of one side of a connection that wait for a reply, and the serial that comes next.
#![tactic(auto)]

ghost use Rattle.std.specs.Prelude.{◌≡◌, ◌≤◌, ◌<◌, ◌+◌, ℕ, None, Some, Err, IfOk, IfErr, IfSome, OnErr, OnOk, MatchOption, is_some, nat_eq, option_map, true, if◌then◌else◌};
ghost use Rattle.std.specs.BTreeMap.{btree_map_len, get};
ghost use Rattle.std.specs.Ordering.{nat_cmp};
ghost use Rattle.dbus_pending.specs.Serials.{AllWait, IsFirstFree, IsNext};

use std::alloc::Global;
use std::collections::BTreeMap;
use thiserror::Error;

/// Why a call does not wait. It is given back, and nothing is changed: no serial was used.
#[derive(Clone, Copy, PartialEq, Eq, Debug, Drop, Error)]
pub enum NotWaiting<T> {
    /// As many calls wait as may.
    #[error("too many calls wait for a reply")]
    Full(T),
    /// An allocation failed.
    #[error("allocation failed")]
    Memory(T),
}

/// The serials of the messages that one side of a connection sends, and its calls that wait for a
/// reply: of each what its caller wants to know again, by its serial.
///
/// Serials rise from 1 on, and from 1 on again past 4,294,967,295. None is 0, and none is that of a
/// call that waits. A call waits until [`Pending::take`] takes it, so it is answered once. D-Bus
/// Specification, "Message Format" (the serial).
///
/// ```rust
/// use dbus_pending::Pending;
///
/// let mut pending = Pending::new(alloc, 128);
/// let hello = pending.call("Hello")?;
/// let signal = pending.serial();
/// println!(rt; "Hello has serial {hello}, and the signal {signal}")?;
/// // A reply comes, and its REPLY_SERIAL is 1.
/// if let Some(name) = pending.take(1) {
///     println!(rt; "{name} was answered")?;
/// }
/// ```
#[derive(Drop)]
pub struct Pending<T> {
    last: u32,
    most: u16,
    calls: BTreeMap<u32, T>,
    ghost few: { btree_map_len calls ≤ most },
}

impl<T: Drop> Pending<T> {
    ghost use Rattle.dbus_pending.specs.Waiting.{AsNext, Refuses, Stays, allowed, count, last, waiting};

    /// No message was sent yet. At most so many calls may wait. It allocates nothing.
    pub fn new(alloc: Global, most: u16) -> Self
        ensures none { (s : ℕ) → waiting result s ≡ None }
        ensures numbers { (last result ≡ 0) × (count result ≡ 0) × (allowed result ≡ most) }
    {
        Pending {
            last: 0,
            most,
            calls: BTreeMap::new(alloc),
        }
    }

    /// The serial of a message that is sent now and waits for no reply: the first behind the last
    /// one that no call waits with.
    pub fn serial(&mut self) -> u32
        ensures next { IsNext (waiting self.old) (last self.old) result }
        ensures last { last self.new ≡ result }
        ensures others { Stays self.old self.new }
    {
        let serial = self.next_serial();
        self.last = serial;
        serial
    }

    /// The serial of a call that is sent now, and waits from now on with what its caller wants to
    /// know again.
    ///
    /// `Full`, `Memory`: see [`NotWaiting`].
    pub fn call(&mut self, call: T) -> Result<u32, NotWaiting<T>>
        ensures next { IfOk result (λ serial. IsNext (waiting self.old) (last self.old) serial) }
        ensures waits { IfOk result (λ serial. AsNext self.old self.new serial call) }
        ensures refused { IfErr result (λ e. Refuses self.old call e) }
        ensures unchanged { OnErr result ((last self.new ≡ last self.old) × Stays self.old self.new) }
    {
        if self.calls.len() >= self.most as usize {
            return Err(NotWaiting::Full(call));
        }
        let serial = self.next_serial();
        match self.calls.insert(serial, call) {
            Ok(_) => {
                self.last = serial;
                Ok(serial)
            }
            Err(failed) => {
                let (_, call) = failed.value;
                Err(NotWaiting::Memory(call))
            }
        }
    }

    /// The call of this serial, if it waits.
    pub fn get(&self, serial: u32) -> Option<&T>
        ensures { option_map (λ call. call.now) result ≡ waiting self.now serial }
    {
        self.calls.get(&serial)
    }

    /// Takes the call of this serial, if it waits: it waits no longer. It allocates nothing.
    pub fn take(&mut self, serial: u32) -> Option<T>
        ensures taken { result ≡ waiting self.old serial }
        ensures left { (s : ℕ) →
            waiting self.new s ≡ (if nat_eq serial s then None else waiting self.old s) }
        ensures count { count self.new + (if is_some result then 1 else 0) ≡ count self.old }
        ensures same { (last self.new ≡ last self.old) × (allowed self.new ≡ allowed self.old) }
    {
        self.calls.remove(&serial)
    }

    /// The serial that the next message gets, if no call waits or is taken before: that which
    /// [`Pending::serial`] and [`Pending::call`] then return.
    #[tactic(auto, using(crate::proofs::Covered::is_found))]
    pub fn next_serial(&self) -> u32
        ensures { IsNext (waiting self.now) (last self.now) result }
    {
        if let Some(serial) = first_free(&self.calls, self.last) {
            return serial;
        }
        // Fewer wait than there are serials, so one is free.
        let most = self.most as usize;
        let count = self.calls.len();
        prove!(count <= most && most < 65_536);
        first_free(&self.calls, 0).unwrap()
    }
}

// The first serial behind this one that no call waits with.
fn first_free<T>(calls: &BTreeMap<u32, T>, behind: u32) -> Option<u32>
    ensures { MatchOption result (AllWait (get nat_cmp calls.now) behind)
        (λ serial. IsFirstFree (get nat_cmp calls.now) behind serial) }
{
    let mut serial = behind;
    while serial < u32::MAX {
        serial += 1;
        if !calls.contains_key(&serial) {
            return Some(serial);
        }
    }
    None
}
