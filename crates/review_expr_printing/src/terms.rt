//! How the terms of requirements and of copy conditions are written.

use crate::written::Written;
use crate::{push_copy, push_requirement};
use review_expr_terms::{CopyTerm, RequirementTerm};
use std::alloc::AllocError;

impl Written for RequirementTerm {
    ghost use Rattle.review_expr_printing.specs.Written.{requirement_word};

    ghost spelling = { requirement_word };

    fn push(&self, text: &mut String) -> Result<(), AllocError> {
        push_requirement(text, self)
    }
}

impl Written for CopyTerm {
    ghost use Rattle.review_expr_printing.specs.Written.{copy_word};

    ghost spelling = { copy_word };

    fn push(&self, text: &mut String) -> Result<(), AllocError> {
        push_copy(text, self)
    }
}
