//! What bytes spell: names, JSON values and bodies.
ghost use Rattle.std.specs.Prelude.{◌≡◌, Some, None, Err, IfOk, option_map};
ghost use Rattle.{serde_json.specs.View.view, review_names.specs.Bad.Gives};
ghost use Rattle.review_json_routes.specs.Parts.{text_of, name_of_bytes, value_spelled, body_spelled};

use review_names::Bad;
use review_words::{Form, Name};
use serde_json::{Map, Value};
use std::alloc::Global;

fn text_of(bytes: &[u8]) -> Option<&str>
    ensures { option_map (λ t. t.now) result ≡ text_of bytes.now }
{
    match str::from_utf8(bytes) {
        Ok(text) => Some(text),
        Err(_) => None,
    }
}

/// The name that bytes are: a text in UTF-8 of the name's form. Form exactly where they are none.
#[tactic(auto, unfolding(crate::specs::Parts::name_of_bytes))]
pub fn name_of_bytes<F: Form>(alloc: Global, bytes: &[u8]) -> Result<Name<F>, Bad>
    ensures { Gives result (name_of_bytes F.is_form bytes.now) }
{
    let text = text_of(bytes).ok_or(Bad::Form)?;
    Ok(Name::read(alloc, text)?)
}

/// The JSON value of a text in UTF-8. Form exactly where the bytes spell none.
#[tactic(auto, unfolding(crate::specs::Parts::value_spelled))]
pub fn value_of(alloc: Global, bytes: &[u8]) -> Result<Value, Bad>
    ensures ok { IfOk result (λ v. value_spelled bytes.now ≡ Some (view v)) }
    ensures form { result ≡ Err Bad.Form → value_spelled bytes.now ≡ None }
{
    let text = text_of(bytes).ok_or(Bad::Form)?;
    match Value::from_str(alloc, text) {
        Ok(value) => Ok(value),
        Err(error) => {
            if error.is_memory() {
                Err(Bad::Memory)
            } else {
                Err(Bad::Form)
            }
        }
    }
}

/// The object that a body is, `{}` where it is empty. Form exactly where it is no object.
#[tactic(auto, unfolding(crate::specs::Parts::body_spelled))]
pub fn body_of(alloc: Global, bytes: &[u8]) -> Result<Value, Bad>
    ensures ok { IfOk result (λ v. body_spelled bytes.now ≡ Some (view v)) }
    ensures form { result ≡ Err Bad.Form → body_spelled bytes.now ≡ None }
{
    if bytes.is_empty() {
        return Ok(Value::Object(Map::new(alloc)));
    }
    let value = value_of(alloc, bytes)?;
    if !value.is_object() {
        return Err(Bad::Form);
    }
    Ok(value)
}
