//! The values that a statement is asked with.
ghost use Rattle.std.specs.Prelude.{IfErr, ◌≤◌, ◌^◌, ◌≡◌, [], ◌∷◌, ◌++◌, ◌<◌, length, pos, true, IfOk};
ghost use Rattle.{std.specs.Str.is_utf8, sqlite.specs.Values.bound};
ghost use Rattle.sqlite_value.specs.declared.value.Value.TheVariants.{Int, Text};

use sqlite::Error;
use sqlite::types::ValueRef;
use std::marker::Model;

/// Up to ten values, in the order in which a text names them. Contracts see their list.
#[derive(Drop)]
pub struct Bound<'a> {
    values: [ValueRef<'a>; 10],
    count: usize,
}

impl<'a> Model for Bound<'a> {
    ghost use Rattle.std.specs.Prelude.{◌≡◌, ◌≤◌, length, take};
    ghost use Rattle.{sqlite.specs.Values.bound, sqlite_value.specs.Order.Row};

    ghost Value = { Row };

    ghost view = { λ b. bound (take b.count b.values) };

    ghost invariant = { λ b. (b.count ≤ 10) × (length b.values ≡ 10) };
}

impl<'a> Bound<'a> {
    /// No value.
    pub fn new() -> Bound<'a>
        ensures { result ≡ [] }
    {
        Bound {
            values: [ValueRef::Null; 10],
            count: 0,
        }
    }

    fn with(self, value: ValueRef<'a>) -> Bound<'a>
        requires { length self < 10 }
        ensures { result ≡ self.entry ++ bound (value.entry ∷ []) }
    {
        let Bound { mut values, count } = self;
        values[count] = value;
        Bound {
            values,
            count: count + 1,
        }
    }

    /// These values and a number after them.
    pub fn number(self, number: u32) -> Bound<'a>
        requires { length self < 10 }
        ensures { result ≡ self.entry ++ Int (pos number) ∷ [] }
    {
        self.with(ValueRef::Int(i64::from(number)))
    }

    /// These values and a number after them, which may be negative.
    pub fn signed(self, number: i64) -> Bound<'a>
        requires { length self < 10 }
        ensures { result ≡ self.entry ++ Int number ∷ [] }
    {
        self.with(ValueRef::Int(number))
    }

    /// These values and a number after them; SQL has none above 9,223,372,036,854,775,807.
    pub fn large(self, number: u64) -> Result<Bound<'a>, Error>
        requires { length self < 10 }
        ensures values { IfOk result (λ bound. bound ≡ self.entry ++ Int (pos number) ∷ []) }
        ensures large { IfErr result (λ e. 2 ^ 63 ≤ number) }
    {
        match i64::try_from(number) {
            Ok(number) => Ok(self.signed(number)),
            Err(_) => Err(Error::InvalidQuery),
        }
    }

    /// These values and a text after them.
    pub fn text(self, text: &'a str) -> Bound<'a>
        requires { length self < 10 }
        ensures values { result ≡ self.entry ++ Text text.now ∷ [] }
        ensures read { is_utf8 text.now ≡ true }
    {
        self.with(ValueRef::Text(text.as_bytes()))
    }

    /// The values, to be passed to a statement.
    pub fn as_slice(&self) -> &[ValueRef<'a>]
        ensures { bound result.now ≡ self.now }
    {
        &self.values[..self.count]
    }
}
