//! The addresses of a text, their keys, and the bytes of their values, one by one from the text
//! itself.
#![tactic(auto)]

ghost use Rattle.std.specs.Prelude.{◌≡◌, ◌<◌, ◌≤◌, ◌+◌, length, drop, option_map};
ghost use Rattle.dbus_address.specs.Parts.{before, after, some_text, number, pair_in, address_in};
ghost use Rattle.dbus_address.specs.Views.{pair_view, address_view, pairs_of};

use crate::bytes::{digit, is_hex};

/// The bytes before the first mark, and those after it.
pub(crate) fn cut<'a>(text: &'a [u8], mark: u8) -> (&'a [u8], Option<&'a [u8]>)
    ensures before { result.0.now ≡ before mark text.now }
    ensures after { option_map (λ t. t.now) result.1 ≡ after mark text.now }
{
    for i in 0..text.len() {
        if text[i] == mark {
            return (&text[..i], Some(&text[i + 1..]));
        }
    }
    (text, None)
}

/// The text, unless it is missing or empty.
fn some_text<'a>(text: Option<&'a [u8]>) -> Option<&'a [u8]>
    ensures { option_map (λ t. t.now) result ≡ some_text (option_map (λ t. t.now) text.entry) }
{
    match text {
        Some([]) => None,
        other => other,
    }
}

/// The number of a hexadecimal digit, and 0 of another byte.
fn number(b: u8) -> u8
    ensures is { result ≡ number b }
    ensures small { result < 16 }
{
    if is_hex(b) { digit(b) } else { 0 }
}

/// The bytes of a value, unescaped one by one. D-Bus Specification, "Server Addresses".
#[derive(Clone, Copy, Drop)]
pub struct ValueBytes<'a> {
    text: &'a [u8],
}

impl<'a> Iterator for ValueBytes<'a> {
    ghost use Rattle.std.specs.Iterator.{YieldsFirst, item_count};
    ghost use Rattle.dbus_address.specs.Views.{bytes_of};

    type Item = u8;

    ghost next_gives = { YieldsFirst bytes_of };

    ghost remaining = { item_count bytes_of };

    /// The next byte, unescaped, if one is left.
    fn next(&mut self) -> Option<u8> {
        let (first, rest) = self.text.split_first()?;
        if *first != b'%' {
            self.text = rest;
            return Some(*first);
        }
        match rest {
            [high, low, ..] => {
                self.text = &rest[2..];
                Some(number(*high) * 16 + number(*low))
            }
            _ => {
                self.text = &[];
                None
            }
        }
    }
}

/// A key and its value. D-Bus Specification, "Server Addresses".
#[derive(Clone, Copy, Drop)]
pub struct PairView<'a> {
    /// The key.
    pub key: &'a [u8],
    /// The bytes of its value.
    pub value: ValueBytes<'a>,
}

/// The pair of a part between commas.
fn pair_in<'a>(part: &'a [u8]) -> PairView<'a>
    ensures { pair_view result ≡ pair_in part.now }
{
    let (key, value) = cut(part, b'=');
    let text = match value {
        Some(text) => text,
        None => &[],
    };
    PairView {
        key,
        value: ValueBytes { text },
    }
}

/// The keys and values of an address, one by one, in their order.
#[derive(Clone, Copy, Drop)]
pub struct Pairs<'a> {
    rest: Option<&'a [u8]>,
}

impl<'a> Iterator for Pairs<'a> {
    ghost use Rattle.std.specs.Iterator.{YieldsFirstBy, item_count};
    ghost use Rattle.dbus_address.specs.Views.{pair_view, pairs_of};

    type Item = PairView<'a>;

    ghost next_gives = { YieldsFirstBy pair_view pairs_of };

    ghost remaining = { item_count pairs_of };

    /// The next key and its value, if one is left.
    #[tactic(auto, using(crate::proofs::Parts::parts_cut))]
    fn next(&mut self) -> Option<PairView<'a>> {
        let (part, rest) = cut(self.rest?, b',');
        self.rest = rest;
        Some(pair_in(part))
    }
}

/// An address: a transport, and keys and values. D-Bus Specification, "Server Addresses".
#[derive(Clone, Copy, Drop)]
pub struct AddressView<'a> {
    /// The transport.
    pub transport: &'a [u8],
    /// The keys and values.
    pub pairs: Pairs<'a>,
}

/// The address of a part between semicolons.
pub(crate) fn address_in<'a>(part: &'a [u8]) -> AddressView<'a>
    ensures { address_view result ≡ address_in part.now }
{
    let (transport, rest) = cut(part, b':');
    AddressView {
        transport,
        pairs: Pairs {
            rest: some_text(rest),
        },
    }
}

/// The addresses of a text, one by one, in their order: a client tries them from the first on.
#[derive(Clone, Copy, Drop)]
pub struct Addresses<'a> {
    rest: Option<&'a [u8]>,
}

impl<'a> Addresses<'a> {
    ghost use Rattle.std.specs.Prelude.{◌≡◌};
    ghost use Rattle.dbus_address.specs.Parts.{addresses_in};
    ghost use Rattle.dbus_address.specs.Views.{addresses_of};

    /// The addresses of the text.
    pub(crate) fn of(text: &'a [u8]) -> Addresses<'a>
        ensures { addresses_of result ≡ addresses_in text.now }
    {
        Addresses { rest: Some(text) }
    }
}

impl<'a> Iterator for Addresses<'a> {
    ghost use Rattle.std.specs.Iterator.{YieldsFirstBy, item_count};
    ghost use Rattle.dbus_address.specs.Views.{address_view, addresses_of};

    type Item = AddressView<'a>;

    ghost next_gives = { YieldsFirstBy address_view addresses_of };

    ghost remaining = { item_count addresses_of };

    /// The next address, if one is left.
    #[tactic(auto, using(crate::proofs::Parts::parts_cut))]
    fn next(&mut self) -> Option<AddressView<'a>> {
        let (part, rest) = cut(self.rest?, b';');
        self.rest = rest;
        Some(address_in(part))
    }
}
