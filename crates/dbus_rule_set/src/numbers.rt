//! Hashes of the texts by which rules are told apart.
#![tactic(auto)]

ghost use Rattle.std.specs.Prelude.{◌≡◌, ◌%◌, ◌^◌};
ghost use Rattle.dbus_rule_set.specs.TextNumbers.{and_byte, text_hash};

/// The number of no bytes.
pub(crate) const START: u64 = 14_695_981_039_346_656_037;

/// What a number is multiplied by for each byte.
const FACTOR: u64 = 1_099_511_628_211;

/// The number of a text with one more byte.
pub(crate) fn and_byte(number: u64, byte: u8) -> u64
    ensures { result ≡ and_byte number byte }
{
    (number ^ u64::from(byte)).wrapping_mul(FACTOR)
}

/// The hash of the text of this number.
pub(crate) fn hash_of(number: u64) -> u32
    ensures { result ≡ number % 2 ^ 32 }
{
    (number % 4_294_967_296) as u32
}

/// The hash of the text: texts of two hashes are two.
#[tactic(auto, using(crate::proofs::Numbered::number_more, crate::proofs::Numbered::number_all))]
pub(crate) fn text_hash(text: &[u8]) -> u32
    ensures { result ≡ text_hash text.now }
{
    let mut number = START;
    for byte in text {
        number = and_byte(number, *byte);
    }
    hash_of(number)
}
