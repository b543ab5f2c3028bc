//! A draft in which values are written.
#![tactic(auto)]

use std::marker::PhantomData;

/// Writes what it visits, in a form.
#[derive(Drop)]
pub(crate) struct Writer<'d, D, F> {
    /// The draft that gains the text.
    pub(crate) draft: &'d mut D,
    /// The form.
    pub(crate) form: PhantomData<F>,
}
