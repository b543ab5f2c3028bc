//! A value that is asked for.

use case_questions::Question;
use dbus_value_model::{FdRule, Limits, Order};

/// A value that is asked for in bytes.
#[derive(Clone, Copy)]
pub(crate) struct Asked<'a> {
    /// The signature of its type.
    pub(crate) types: &'a [u8],
    pub(crate) order: Order,
    /// The offset at which it begins.
    pub(crate) at: usize,
    /// The offset where it ends at the latest.
    pub(crate) end: usize,
    /// How many containers are open around it.
    pub(crate) open: u8,
    pub(crate) limits: Limits,
    /// What each index of a file descriptor is to be below.
    pub(crate) fds: Option<u32>,
}

impl<'a> Asked<'a> {
    /// What a question asks for, of a type that has this signature, in so many bytes.
    pub(crate) fn new(question: Question<'_>, types: &'a [u8], length: usize) -> Asked<'a> {
        let rule = match question.setting("rule") {
            Some("below-count") => FdRule::BelowCount,
            _ => FdRule::Any,
        };
        Asked {
            types,
            order: question.order(),
            at: question.count("at", 0),
            end: question.count("end", length),
            open: u8::try_from(question.count("open", 0)).unwrap_or(u8::MAX),
            limits: question.limits().with_fds(rule),
            fds: question.uint32("fds"),
        }
    }

    /// The same value if it is to end at another offset.
    pub(crate) fn up_to(self, end: usize) -> Asked<'a> {
        Asked { end, ..self }
    }

    /// The same value if the bytes have it alone, in little order.
    pub(crate) fn whole(self, length: usize) -> Asked<'a> {
        Asked {
            order: Order::Little,
            at: 0,
            end: length,
            ..self
        }
    }

    /// The same value if no container is open, under the limits of the specification and with any
    /// index.
    pub(crate) fn alone(self) -> Asked<'a> {
        Asked {
            open: 0,
            limits: Limits::specification(),
            fds: None,
            ..self
        }
    }
}
