//! The values that a review gives on labels.
ghost use Rattle.std.specs.Prelude.{◌≡◌};
ghost use Rattle.{serde_json.specs.View.view, review_names.specs.Bad.Gives};
ghost use Rattle.review_json_routes.specs.Reviews.{value_of, labels_in};

use review_names::Bad;
use review_words::{Given, LabelName, Labels};
use serde_json::Value;
use std::alloc::Global;

/// The value on a label that a whole number is, if it is from -99 to 99.
#[tactic(auto, unfolding(crate::specs::Reviews::value_of))]
pub fn value_of(value: &Value) -> Option<i8>
    ensures { result ≡ value_of (view value.now) }
{
    let number = value.as_i64()?;
    if -99 <= number && number <= 99 {
        Some(number as i8)
    } else {
        None
    }
}

/// The values that a review gives: `labels`, an object from the names of labels to whole numbers
/// from -99 to 99, which may be absent.
#[tactic(auto, unfolding(crate::specs::Reviews::labels_in, crate::specs::Reviews::labels_of, crate::specs::Reviews::given_of))]
pub fn labels_in(alloc: Global, body: &Value) -> Result<Labels, Bad>
    ensures { Gives result (labels_in (view body.now)) }
{
    let mut given = Vec::new(alloc);
    let Some(labels) = body.get("labels") else {
        return Ok(Labels::from_vec(alloc, given)?);
    };
    for (key, value) in labels.as_object().ok_or(Bad::Form)?.iter() {
        let label = LabelName::read(alloc, key.as_str())?;
        let value = value_of(value).ok_or(Bad::Form)?;
        given.push(Given { label, value })?;
    }
    Ok(Labels::from_vec(alloc, given)?)
}
