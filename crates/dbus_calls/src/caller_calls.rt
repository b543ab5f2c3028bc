//! The calls of a caller that wait for a reply.
#![tactic(auto)]

ghost use Rattle.std.specs.Prelude.{◌≡◌, ◌++◌, ℕ, nat_eq, map, true, None, Some, option_map, IfOk, IfErr, OnErr, OnOk, if◌then◌else◌};
ghost use Rattle.std.specs.BTreeMap.{IsOrdered, get};
ghost use Rattle.std.specs.List.{All};
ghost use Rattle.std.specs.List.Sorted.{IsStrictlySortedBy};
ghost use Rattle.std.specs.Map.{keys_of, values_of};
ghost use Rattle.std.specs.Ordering.{nat_cmp};
ghost use Rattle.dbus_calls.specs.Kept.{call_at, entries_of, is_one};

use std::alloc::{AllocError, Global};
use std::collections::BTreeMap;
use std::mem;

/// The calls of a caller that wait for a reply, at most one of each serial. Most callers have one,
/// and it takes no map, which has room for fifteen.
#[derive(Drop)]
pub enum CallerCalls<T: Drop> {
    /// The call of this serial.
    One(u32, T),
    /// Calls by their serials.
    Several(BTreeMap<u32, T>),
}

impl<T: Drop> CallerCalls<T> {
    /// Appends the calls to others, in the order of their serials.
    ///
    /// `AllocError`: an allocation failed.
    pub fn append_to<'a>(&'a self, others: &mut Vec<&'a T>) -> Result<(), AllocError>
        ensures ordered { OnOk result (IsStrictlySortedBy nat_cmp (keys_of (entries_of self.now))) }
        ensures found { OnOk result
            (All (λ e. call_at self.now e.0 ≡ Some e.1) (entries_of self.now)) }
        ensures appended { OnOk result (map (λ call. call.now) others.new.items ≡
            map (λ call. call.now) others.old.items ++ values_of (entries_of self.now)) }
    {
        match self {
            CallerCalls::One(_, call) => {
                others.push(call)?;
                Ok(())
            }
            CallerCalls::Several(calls) => append_each(others, calls),
        }
    }

    /// The call of this serial.
    pub(crate) fn get(&self, serial: u32) -> Option<&T>
        ensures { option_map (λ call. call.now) result ≡ call_at self.now serial }
    {
        match self {
            CallerCalls::One(only, call) => { if *only == serial { Some(call) } else { None } }
            CallerCalls::Several(calls) => calls.get(&serial),
        }
    }

    /// Puts a call among them, and returns the one of that serial, whose place it takes.
    ///
    /// `AllocError`: an allocation failed. Then the calls are those from before.
    pub(crate) fn put(
        &mut self,
        alloc: Global,
        serial: u32,
        call: T,
    ) -> Result<Option<T>, AllocError>
        ensures put { OnOk result ((s : ℕ) →
            call_at self.new s ≡ (if nat_eq serial s then Some call else call_at self.old s)) }
        ensures before { IfOk result (λ before. before ≡ call_at self.old serial) }
        ensures unchanged { OnErr result ((s : ℕ) → call_at self.new s ≡ call_at self.old s) }
    {
        match mem::replace(self, CallerCalls::Several(BTreeMap::new(alloc))).into_map(alloc) {
            Ok(mut calls) => {
                let before = put(&mut calls, serial, call);
                *self = CallerCalls::Several(calls);
                before
            }
            Err(calls) => {
                *self = calls;
                Err(AllocError)
            }
        }
    }

    // The calls as a map; or if an allocation failed, as they are.
    fn into_map(self, alloc: Global) -> Result<BTreeMap<u32, T>, CallerCalls<T>>
        ensures same { IfOk result (λ calls. (s : ℕ) → get nat_cmp calls s ≡ call_at self s) }
        ensures unchanged { IfErr result (λ calls. (s : ℕ) → call_at calls s ≡ call_at self s) }
    {
        match self {
            CallerCalls::One(serial, call) => {
                let mut calls = BTreeMap::new(alloc);
                match calls.insert(serial, call) {
                    Ok(_) => Ok(calls),
                    Err(failed) => {
                        let (serial, call) = failed.value;
                        Err(CallerCalls::One(serial, call))
                    }
                }
            }
            CallerCalls::Several(calls) => Ok(calls),
        }
    }

    /// Takes the call of this serial away.
    pub(crate) fn take(&mut self, alloc: Global, serial: u32) -> Option<T>
        ensures taken { result ≡ call_at self.old serial }
        ensures left { (s : ℕ) →
            call_at self.new s ≡ (if nat_eq serial s then None else call_at self.old s) }
    {
        if self.is_one(serial) {
            return mem::replace(self, CallerCalls::Several(BTreeMap::new(alloc))).into_call();
        }
        match self {
            CallerCalls::One(_, _) => None,
            CallerCalls::Several(calls) => calls.remove(&serial),
        }
    }

    // Whether there is one, of this serial.
    fn is_one(&self, serial: u32) -> bool
        ensures { result ≡ is_one self.now serial }
    {
        match self {
            CallerCalls::One(only, _) => *only == serial,
            CallerCalls::Several(_) => false,
        }
    }

    // The call, if there is one.
    fn into_call(self) -> Option<T>
        ensures { (s : ℕ) → is_one self s ≡ true → result ≡ call_at self s }
    {
        match self {
            CallerCalls::One(_, call) => Some(call),
            CallerCalls::Several(_) => None,
        }
    }

    /// Whether there is none.
    pub(crate) fn is_empty(&self) -> bool
        ensures { result ≡ true → (s : ℕ) → call_at self.now s ≡ None }
    {
        match self {
            CallerCalls::One(_, _) => false,
            CallerCalls::Several(calls) => calls.is_empty(),
        }
    }
}

// Puts a call among those of a map, and returns the one of that serial, whose place it takes.
fn put<T: Drop>(calls: &mut BTreeMap<u32, T>, serial: u32, call: T) -> Result<Option<T>, AllocError>
    ensures put { OnOk result ((s : ℕ) →
        get nat_cmp calls.new s ≡ (if nat_eq serial s then Some call else get nat_cmp calls.old s)) }
    ensures before { IfOk result (λ before. before ≡ get nat_cmp calls.old serial) }
    ensures unchanged { OnErr result ((s : ℕ) → get nat_cmp calls.new s ≡ get nat_cmp calls.old s) }
{
    match calls.insert(serial, call) {
        Ok(before) => Ok(before),
        Err(_) => Err(AllocError),
    }
}

// Appends the calls of a map to others, in the order of their serials.
fn append_each<'a, T: Drop>(
    others: &mut Vec<&'a T>,
    calls: &'a BTreeMap<u32, T>,
) -> Result<(), AllocError>
    ensures ordered { OnOk result (IsOrdered nat_cmp calls.now) }
    ensures found { OnOk result
        (All (λ e. get nat_cmp calls.now e.0 ≡ Some e.1) calls.now.entries) }
    ensures appended { OnOk result (map (λ call. call.now) others.new.items ≡
        map (λ call. call.now) others.old.items ++ values_of calls.now.entries) }
{
    for (_, call) in calls {
        others.push(call)?;
    }
    Ok(())
}
