//! The keys and rows of tables, as they are read.
ghost use Rattle.std.specs.Prelude.{◌≡◌, ◌≤◌, Some, None, IfOk, nat_le, string_bytes, if◌then◌else◌};

use review_table::Key;
use review_words::{AccountNo, Epoch, RequestId};
use std::alloc::{AllocError, Global};
use std::marker::Model;

/// A text of a column. Contracts see its bytes.
#[derive(Drop)]
pub struct Text {
    text: String,
}

impl Model for Text {
    ghost use Rattle.std.specs.Prelude.{ℕ, List, string_bytes};

    ghost Value = { List ℕ };

    ghost view = { λ t. string_bytes t.text };
}

impl Text {
    /// The text once more.
    pub fn copy(alloc: Global, text: &str) -> Result<Text, AllocError>
        ensures { IfOk result (λ t. t ≡ text.now) }
    {
        Ok(Text {
            text: String::from_str(alloc, text)?,
        })
    }

    /// The text as it is lent.
    pub fn as_str(&self) -> &str
        ensures { result.now ≡ self.now }
    {
        self.text.as_str()
    }

    /// The text itself.
    pub fn into_string(self) -> String
        ensures { string_bytes result ≡ self }
    {
        let Text { text } = self;
        text
    }
}

/// The number of a place, from 1. Contracts see the number.
#[derive(Clone, Copy, PartialEq, Eq, PartialOrd, Ord)]
pub struct PlaceNo {
    number: u64,
}

impl Model for PlaceNo {
    ghost use Rattle.std.specs.Prelude.{ℕ, IsTrue, nat_le};

    ghost Value = { ℕ };

    ghost view = { λ p. p.number };

    ghost invariant = { λ p. IsTrue (nat_le 1 p.number) };

    ghost inverse = { λ n. record { number = n } };
}

impl PlaceNo {
    /// The place of a number, or none where the number is 0.
    pub fn from_number(number: u64) -> Option<PlaceNo>
        ensures { result ≡ (if nat_le 1 number then Some number else None) }
    {
        if number >= 1 {
            Some(PlaceNo { number })
        } else {
            None
        }
    }

    /// The number, from 1.
    pub fn get(self) -> u64
        ensures value { result ≡ self }
        ensures least { 1 ≤ self }
    {
        self.number
    }
}

impl Key for PlaceNo {
    fn copy(&self) -> Result<PlaceNo, AllocError> {
        Ok(*self)
    }
}

/// The identity of a request, with its epoch.
#[derive(Drop)]
pub struct RequestKey {
    pub caller: AccountNo,
    pub epoch: Epoch,
    pub id: RequestId,
}

/// The rest of a stored request.
#[derive(Drop)]
pub struct Answered {
    pub request: u64,
    pub content: Text,
    pub reply: Text,
}

/// What the row of the desk says.
#[derive(Clone, Copy, PartialEq, Eq)]
pub struct DeskRow {
    pub version: u64,
    pub requests: u64,
}
