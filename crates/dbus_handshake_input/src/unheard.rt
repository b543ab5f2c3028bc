//! Lines that nobody takes.
#![tactic(auto)]

use crate::visitor::LineVisitor;
use dbus_auth_lines::{ClientLine, ServerLine};
use std::alloc::Allocator;

/// Takes lines and keeps nothing of them.
#[derive(Drop)]
pub(crate) struct Unheard;

impl LineVisitor for Unheard {
    ghost hears = { λ _ _ _. Unit {0} };

    fn client_line<A: Allocator>(&mut self, _offset: usize, _line: &[u8], _said: &ClientLine<A>) {}

    fn server_line<A: Allocator>(&mut self, _offset: usize, _line: &[u8], _said: &ServerLine<A>) {}

    ghost nothing = { λ _. tt };

    ghost joins = { λ _ _ _ _ _ _ _. tt };
}
