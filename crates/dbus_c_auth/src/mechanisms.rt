//! Which mechanisms an end has, by numbers.
#![tactic(auto)]

ghost use Rattle.std.specs.Prelude.{◌≡◌, ◌≤◌, ℕ, true, IfOk, length, map};
ghost use Rattle.std.specs.List.{list_all};
ghost use Rattle.dbus_auth.specs.ClientViews.{client_mechanism, is_short};
ghost use Rattle.dbus_c_auth.specs.Mechanisms.{asked_for, passes_descriptors, user_reported, is_anonymous};

use dbus_auth::Mechanism;
use std::alloc::{AllocError, Global};

/// EXTERNAL, as the user of this number.
pub const AS_USER: u32 = 1;

/// EXTERNAL, as the user that the transport reports to the server: the client names none.
pub const AS_REPORTED: u32 = 2;

/// Which mechanisms a server offers, or a client asks for, and whether it passes descriptors.
#[repr(C)]
#[derive(Clone, Copy, Drop)]
pub struct Mechanisms {
    /// [`AS_USER`], or of a client [`AS_REPORTED`]: EXTERNAL. Any other number: no EXTERNAL.
    pub external: u32,
    /// Of [`AS_USER`]: the number of the user. A server has to be given the one that the transport
    /// reports.
    pub user: u32,
    /// 1: ANONYMOUS. Any other number: no ANONYMOUS.
    pub anonymous: u32,
    /// 1: Unix file descriptors. A server agrees to pass them, and a client asks for it. Any other
    /// number: no descriptors.
    pub descriptors: u32,
}

impl Mechanisms {
    /// The user whom a server lets in by EXTERNAL.
    pub(crate) fn user_reported(&self) -> Option<u32>
        ensures { result ≡ user_reported self.now }
    {
        match self.external {
            AS_USER => Some(self.user),
            _ => None,
        }
    }

    /// Whether there is ANONYMOUS.
    pub(crate) fn is_anonymous(&self) -> bool
        ensures { result ≡ is_anonymous self.now }
    {
        self.anonymous == 1
    }

    /// Whether descriptors are passed, if the other end does.
    pub(crate) fn passes_descriptors(&self) -> bool
        ensures { result ≡ passes_descriptors self.now }
    {
        self.descriptors == 1
    }

    /// What a client asks for, with this trace of ANONYMOUS: EXTERNAL first.
    ///
    /// Returns `AllocError` if an allocation failed.
    pub(crate) fn asked_for(
        &self,
        alloc: Global,
        trace: &[u8],
    ) -> Result<Vec<Mechanism>, AllocError>
        requires { length trace.now ≤ 255 }
        ensures short { IfOk result (λ v. list_all is_short v.items ≡ true) }
        ensures asked { IfOk result (λ v. map client_mechanism v.items ≡ asked_for self.now trace.now) }
    {
        let mut mechanisms = Vec::new(alloc);
        match self.external {
            AS_USER => mechanisms.push(Mechanism::External(Some(self.user)))?,
            AS_REPORTED => mechanisms.push(Mechanism::External(None))?,
            _ => {}
        }
        if self.is_anonymous() {
            mechanisms.push(Mechanism::Anonymous(Vec::from_slice(alloc, trace)?))?;
        }
        Ok(mechanisms)
    }
}
