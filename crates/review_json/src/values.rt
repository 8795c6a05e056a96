//! The values of numbers, names, flags and lists.
ghost use Rattle.std.specs.Prelude.{map};
ghost use Rattle.serde_json.specs.{Data.array, Data.boolean, Data.number, Data.string, Find.of_integer, View.items_of};
ghost use Rattle.review_json.specs.Shown.{number_data, numbers_data, texts_data};

use crate::text::{JsonText, Written};
use review_names::{Form, Name, Number, NumberKind};
use review_words::{Bases, CommentNumbers, Listed};
use std::alloc::AllocError;

impl Written for u64 {
    ghost value_of = { number_data };

    fn write_to(&self, text: &mut JsonText) -> Result<(), AllocError> {
        text.number(*self)
    }
}

impl Written for u32 {
    ghost value_of = { number_data };

    fn write_to(&self, text: &mut JsonText) -> Result<(), AllocError> {
        text.number(*self as u64)
    }
}

impl Written for i8 {
    ghost value_of = { λ n. number (of_integer n) };

    fn write_to(&self, text: &mut JsonText) -> Result<(), AllocError> {
        text.integer(*self as i64)
    }
}

impl Written for bool {
    ghost value_of = { boolean };

    fn write_to(&self, text: &mut JsonText) -> Result<(), AllocError> {
        text.flag(*self)
    }
}

impl<K: NumberKind> Written for Number<K> {
    ghost value_of = { number_data };

    fn write_to(&self, text: &mut JsonText) -> Result<(), AllocError> {
        text.number(self.get() as u64)
    }
}

impl<F: Form> Written for Name<F> {
    ghost value_of = { λ name. string name };

    fn write_to(&self, text: &mut JsonText) -> Result<(), AllocError> {
        text.text(self.as_str())
    }
}

impl<T: Written> Written for Listed<T> {
    ghost value_of = { λ items. array (items_of (map T.value_of items)) };

    fn write_to(&self, text: &mut JsonText) -> Result<(), AllocError> {
        text.list(self.as_slice())
    }
}

impl Written for Bases {
    ghost value_of = { λ commits. array (texts_data commits) };

    fn write_to(&self, text: &mut JsonText) -> Result<(), AllocError> {
        let commits = self.as_slice();
        text.list(commits)
    }
}

impl Written for CommentNumbers {
    ghost value_of = { λ comments. array (numbers_data comments) };

    fn write_to(&self, text: &mut JsonText) -> Result<(), AllocError> {
        let numbers = self.as_slice();
        text.list(numbers)
    }
}
