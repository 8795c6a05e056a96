//! A JSON text, written token by token: no value is made of what it says.
ghost use Rattle.std.specs.Prelude.{◌≡◌, ◌++◌, ◌∷◌, [], IfOk, OnOk, map, string_bytes};
ghost use Rattle.json.specs.{Print.print, Token.begin_object, Token.end_object, Token.key};
ghost use Rattle.serde_json.specs.Data.{Data, array, boolean, number, string};
ghost use Rattle.serde_json.specs.{Find.of_integer, View.items_of};
ghost use Rattle.review_json.specs.{Shown.number_data, Tokens.HasPut, Tokens.member_tokens, Tokens.value_tokens};

use json::Writer;
use std::alloc::{AllocError, Global};
use std::marker::Model;

/// Room for most answers.
const ROOM: usize = 512;

/// A text that is being written. Contracts see the tokens that it has so far.
#[derive(Drop)]
pub struct JsonText {
    writer: Writer,
}

impl Model for JsonText {
    ghost use Rattle.std.specs.Prelude.{◌≡◌, List, []};
    ghost use Rattle.json.specs.Token.{Token, tokens_code};

    ghost Value = { List Token };

    ghost coded = { tokens_code };

    ghost view = { λ t. t.writer.tokens };

    ghost invariant = { λ t. t.writer.before ≡ [] };
}

/// What has a JSON value.
pub trait Written {
    ghost value_of: { Self → Data };

    /// Writes the value.
    fn write_to(&self, text: &mut JsonText) -> Result<(), AllocError>
        ensures { OnOk result (HasPut text.old text.new (value_tokens (value_of self.now))) };
}

impl JsonText {
    /// A text with nothing in it.
    pub fn new(alloc: Global) -> Result<JsonText, AllocError>
        ensures { IfOk result (λ text. text ≡ []) }
    {
        let room = Vec::with_capacity(alloc, ROOM)?;
        Ok(JsonText {
            writer: Writer::new(room),
        })
    }

    /// The text of what was written.
    pub fn into_string(self) -> String
        ensures { string_bytes result ≡ print self }
    {
        let JsonText { writer } = self;
        match String::from_utf8(writer.into_inner()) {
            Ok(text) => text,
            Err(_) => unreachable!(),
        }
    }

    /// Begins an object.
    pub fn begin_object(&mut self) -> Result<(), AllocError>
        ensures { OnOk result (HasPut self.old self.new (begin_object ∷ [])) }
    {
        self.writer.begin_object()
    }

    /// Ends an object.
    pub fn end_object(&mut self) -> Result<(), AllocError>
        ensures { OnOk result (HasPut self.old self.new (end_object ∷ [])) }
    {
        self.writer.end_object()
    }

    /// Puts a member.
    pub fn put<T: Written>(&mut self, name: &str, value: &T) -> Result<(), AllocError>
        ensures { OnOk result (HasPut self.old self.new (member_tokens name.now (T.value_of value.now))) }
    {
        self.key(name)?;
        value.write_to(self)
    }

    /// Puts a member that is a text.
    pub fn put_text(&mut self, name: &str, text: &str) -> Result<(), AllocError>
        ensures { OnOk result (HasPut self.old self.new (member_tokens name.now (string text.now))) }
    {
        self.key(name)?;
        self.text(text)
    }

    fn key(&mut self, name: &str) -> Result<(), AllocError>
        ensures { OnOk result (HasPut self.old self.new (key name.now ∷ [])) }
    {
        self.writer.key(name)
    }

    /// Writes a text.
    pub fn text(&mut self, text: &str) -> Result<(), AllocError>
        ensures { OnOk result (HasPut self.old self.new (value_tokens (string text.now))) }
    {
        self.writer.string(text)
    }

    /// Writes a number.
    pub fn number(&mut self, n: u64) -> Result<(), AllocError>
        ensures { OnOk result (HasPut self.old self.new (value_tokens (number_data n))) }
    {
        self.writer.u64(n)
    }

    /// Writes a number with a sign.
    #[tactic(auto, using(crate::proofs::Texts::integer_text))]
    pub fn integer(&mut self, n: i64) -> Result<(), AllocError>
        ensures { OnOk result (HasPut self.old self.new (value_tokens (number (of_integer n)))) }
    {
        self.writer.i64(n)
    }

    /// Writes whether something holds.
    pub fn flag(&mut self, flag: bool) -> Result<(), AllocError>
        ensures { OnOk result (HasPut self.old self.new (value_tokens (boolean flag))) }
    {
        self.writer.boolean(flag)
    }

    /// Writes a list, item by item.
    pub fn list<T: Written>(&mut self, items: &[T]) -> Result<(), AllocError>
        ensures { OnOk result (HasPut self.old self.new (value_tokens (array (items_of (map T.value_of items.now))))) }
    {
        self.writer.begin_array()?;
        for item in items {
            item.write_to(self)?;
        }
        self.writer.end_array()
    }
}
