//! The calls that wait for a reply.
#![tactic(auto)]

ghost use Rattle.std.specs.Prelude.{◌≡◌, ℕ, true, option_map, is_some, List, None, IfOk, OnErr, OnOk};
ghost use Rattle.std.specs.BTreeMap.{get_by_text};

use crate::answering::may_answer;
use crate::caller_calls::CallerCalls;
use crate::sent::Sent;
use std::alloc::{AllocError, Global};
use std::collections::BTreeMap;

/// The calls that wait for a reply, at most one of each caller and serial. A caller is the name of
/// a connection, or no text if messages have no SENDER. D-Bus Specification, "Message Types"
/// ("Method Calls").
///
/// What becomes of it by an [`Event`](crate::Event): [`OpenCalls::open`] by a call that wants a
/// reply, [`OpenCalls::close`] by one that wants none, since it may use a serial again,
/// [`OpenCalls::answer`] by a reply, [`OpenCalls::close_all`] if a caller is gone.
///
/// It holds memory for the open calls alone. To open one, and to close one or all of a caller,
/// takes time for the logarithm of the number of callers and of the caller's calls.
#[derive(Drop)]
pub struct OpenCalls<T: Drop> {
    alloc: Global,
    callers: BTreeMap<String, CallerCalls<T>>,
}

impl<T: Drop> OpenCalls<T> {
    ghost use Rattle.dbus_calls.specs.Waiting.{no_calls, with_call, without_call, without_caller};
    ghost use Rattle.dbus_calls.specs.Kept.{waiting, call_in};

    /// No call is open. It allocates nothing.
    pub fn new(alloc: Global) -> Self
        ensures { (caller : List ℕ) (serial : ℕ) → waiting result caller serial ≡ no_calls caller serial }
    {
        OpenCalls {
            alloc,
            callers: BTreeMap::new(alloc),
        }
    }

    /// Opens a call, and returns the open one of its caller and serial, whose place it takes: the
    /// serial was used again.
    ///
    /// `AllocError`: an allocation failed. Then the open calls are those from before.
    pub fn open(&mut self, caller: &str, serial: u32, call: T) -> Result<Option<T>, AllocError>
        ensures opens { OnOk result ((c : List ℕ) (s : ℕ) →
            waiting self.new c s ≡ with_call caller.now serial call (waiting self.old) c s) }
        ensures before { IfOk result (λ before. before ≡ waiting self.old caller.now serial) }
        ensures unchanged { OnErr result ((c : List ℕ) (s : ℕ) → waiting self.new c s ≡ waiting self.old c s) }
    {
        match self.callers.get_mut(caller) {
            Some(calls) => {
                let before = calls.put(self.alloc, serial, call)?;
                Ok(before)
            }
            None => {
                self.open_first(caller, serial, call)?;
                Ok(None)
            }
        }
    }

    // Opens the first call of a caller.
    fn open_first(&mut self, caller: &str, serial: u32, call: T) -> Result<(), AllocError>
        requires { get_by_text self.old.callers caller.now ≡ None }
        ensures opens { OnOk result ((c : List ℕ) (s : ℕ) →
            waiting self.new c s ≡ with_call caller.now serial call (waiting self.old) c s) }
        ensures unchanged { OnErr result ((c : List ℕ) (s : ℕ) → waiting self.new c s ≡ waiting self.old c s) }
    {
        let name = String::from_str(self.alloc, caller)?;
        match self.callers.insert(name, CallerCalls::One(serial, call)) {
            Ok(_) => Ok(()),
            Err(_) => Err(AllocError),
        }
    }

    /// The open call of this caller and serial.
    pub fn get(&self, caller: &str, serial: u32) -> Option<&T>
        ensures { option_map (λ call. call.now) result ≡ waiting self.now caller.now serial }
    {
        match self.callers.get(caller) {
            Some(calls) => calls.get(serial),
            None => None,
        }
    }

    /// Closes the call of this caller and serial, and returns it, if it is open. It allocates
    /// nothing.
    pub fn close(&mut self, caller: &str, serial: u32) -> Option<T>
        ensures closed { result ≡ waiting self.old caller.now serial }
        ensures left { (c : List ℕ) (s : ℕ) →
            waiting self.new c s ≡ without_call caller.now serial (waiting self.old) c s }
    {
        let (call, idle) = self.take(caller, serial);
        if idle {
            self.callers.remove(caller);
        }
        call
    }

    // Takes the call of this caller and serial away, and returns whether the caller is kept and has
    // no other.
    fn take(&mut self, caller: &str, serial: u32) -> (Option<T>, bool)
        ensures closed { result.0 ≡ waiting self.old caller.now serial }
        ensures idle { result.1 ≡ true → (s : ℕ) → waiting self.new caller.now s ≡ None }
        ensures left { (c : List ℕ) (s : ℕ) →
            waiting self.new c s ≡ without_call caller.now serial (waiting self.old) c s }
    {
        match self.callers.get_mut(caller) {
            Some(calls) => {
                let call = calls.take(self.alloc, serial);
                (call, calls.is_empty())
            }
            None => (None, false),
        }
    }

    /// Closes all calls of the caller of this name, and returns them: it is gone.
    /// It allocates nothing.
    pub fn close_all(&mut self, name: &str) -> Option<CallerCalls<T>>
        ensures closed { (s : ℕ) → call_in result s ≡ waiting self.old name.now s }
        ensures left { (c : List ℕ) (s : ℕ) →
            waiting self.new c s ≡ without_caller name.now (waiting self.old) c s }
    {
        self.callers.remove(name)
    }

    /// The calls that are still open, by their callers.
    pub fn into_callers(self) -> BTreeMap<String, CallerCalls<T>>
        ensures { (c : List ℕ) (s : ℕ) → call_in (get_by_text result c) s ≡ waiting self c s }
    {
        let OpenCalls { callers, .. } = self;
        callers
    }
}

impl<T: Sent> OpenCalls<T> {
    ghost use Rattle.dbus_calls.specs.Waiting.{after_reply, answered, without_call};
    ghost use Rattle.dbus_calls.specs.Kept.{waiting};

    /// Closes the call that a reply of this sender answers, and returns it: the open one of this
    /// caller and serial, if [`may_answer`](crate::may_answer) says so of its destination. It
    /// allocates nothing.
    pub fn answer(&mut self, caller: &str, serial: u32, sender: Option<&str>) -> Option<T>
        ensures answers { result ≡ answered T.sent_to (waiting self.old caller.now serial)
            (option_map (λ s. s.now) sender.entry) }
        ensures left { (c : List ℕ) (s : ℕ) →
            waiting self.new c s ≡ after_reply T.sent_to (waiting self.old caller.now serial) caller.now serial
            (option_map (λ s. s.now) sender.entry) (waiting self.old) c s }
    {
        if self.is_answered(caller, serial, sender) {
            self.close(caller, serial)
        } else {
            None
        }
    }

    // Whether a call of this caller and serial is open that a message of this sender may answer.
    fn is_answered(&self, caller: &str, serial: u32, sender: Option<&str>) -> bool
        ensures { result ≡ is_some (answered T.sent_to (waiting self.now caller.now serial)
            (option_map (λ s. s.now) sender.entry)) }
    {
        match self.get(caller, serial) {
            Some(call) => may_answer(call.destination(), sender),
            None => false,
        }
    }
}
