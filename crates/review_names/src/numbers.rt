//! Numbers of texts, and the numbers of each kind of thing. Contracts see the number.
ghost use Rattle.std.specs.Prelude.{◌≡◌, ◌+◌, ◌≤◌, ◌<◌, ◌&&◌, ◌^◌, ℕ, Bool, Some, None, true, IfOk, IfErr, IfSome, IsTrue, nat_le, nat_lt, if◌then◌else◌};
ghost use Rattle.review_names.specs.{Forms.is_within, Numerals.number_of, Numerals.numeral};

use crate::names::Bad;
use std::marker::{Model, PhantomData};

/// A kind of numbers: those from 1 to a greatest one.
pub trait NumberKind: Copy {
    /// The greatest number of the kind, for contracts.
    ghost MOST: { ℕ };

    /// The greatest number of the kind.
    const MOST: u32;

    /// Whether a number is of the kind.
    ghost is_met: { ℕ → Bool };

    /// Those of the kind are those from 1 to the greatest one.
    ghost spans: { (n : ℕ) → is_met n ≡ is_within MOST n };

    /// There is one of the kind, and the greatest one fits 32 bits.
    ghost fits: { IsTrue (nat_le 1 MOST && nat_lt MOST 4294967296) };
}

/// A number of a kind. Contracts see the number.
#[derive_where(Clone, Copy, Debug, PartialEq, Eq, PartialOrd, Ord)]
pub struct Number<K: NumberKind> {
    pub(crate) number: u32,
    #[derive_where(skip)]
    pub(crate) kind: PhantomData<K>,
}

impl<K: NumberKind> Model for Number<K> {
    ghost use Rattle.std.specs.Prelude.{ℕ, IsTrue};

    ghost Value = { ℕ };

    ghost view = { λ n. n.number };

    ghost invariant = { λ n. IsTrue (K.is_met n.number) };

    ghost inverse = { λ n. record { number = n; kind = record {} } };
}

impl<K: NumberKind> Number<K> {
    /// The one of a number, or none where the number isn't of the kind.
    pub fn from_number(number: u64) -> Option<Number<K>>
        ensures { result ≡ (if K.is_met number then Some number else None) }
    {
        if number >= 1 && number <= K::MOST as u64 {
            Some(Number {
                number: number as u32,
                kind: PhantomData,
            })
        } else {
            None
        }
    }

    /// The one whose number a text is, in decimal without leading zeros. Any other text is
    /// answered by Form. This takes no memory, so Memory is never answered.
    pub fn read(text: &str) -> Result<Number<K>, Bad>
        ensures ok { IfOk result (λ n. (numeral n ≡ text.now) × (K.is_met n ≡ true)) }
        ensures form { IfErr result (λ e. (e ≡ Bad.Form) × ((n : ℕ) → K.is_met n ≡ true → numeral n ≡ text.now → ⊥)) }
    {
        let Some(number) = read_number(text.as_bytes()) else {
            return Err(Bad::Form);
        };
        Number::from_number(number).ok_or(Bad::Form)
    }

    /// The one after that of a number, or none where that is the last.
    pub fn after(last: u32) -> Option<Number<K>>
        ensures some { IfSome result (λ n. (n ≡ last + 1) × (last < K.MOST)) }
        ensures none { result ≡ None → K.MOST ≤ last }
    {
        if last >= K::MOST {
            return None;
        }
        Some(Number {
            number: last + 1,
            kind: PhantomData,
        })
    }

    /// The first one, whose number is 1.
    pub fn first() -> Number<K>
        ensures { result ≡ 1 }
    {
        Number {
            number: 1,
            kind: PhantomData,
        }
    }

    /// The last one that there can be.
    pub fn last() -> Number<K>
        ensures { result ≡ K.MOST }
    {
        Number {
            number: K::MOST,
            kind: PhantomData,
        }
    }

    /// The number, from 1 to the greatest one of the kind.
    pub fn get(self) -> u32
        ensures value { result ≡ self }
        ensures least { 1 ≤ self }
        ensures most { self ≤ K.MOST }
    {
        self.number
    }
}

/// The number below 2^64 that the bytes are the decimal of, without leading zeros.
#[tactic(auto, unfolding(crate::specs::Numerals::number_of))]
pub fn read_number(bytes: &[u8]) -> Option<u64>
    ensures { result ≡ number_of bytes.now }
{
    if bytes.is_empty() || bytes.len() > 1 && bytes[0] <= b'0' {
        return None;
    }
    let mut number = 0u64;
    for byte in bytes {
        if *byte < b'0' || *byte > b'9' {
            return None;
        }
        let next = number as u128 * 10 + (*byte - b'0') as u128;
        if next >= 18_446_744_073_709_551_616 {
            return None;
        }
        number = next as u64;
    }
    Some(number)
}
