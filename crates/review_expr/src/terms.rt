//! How the words of requirements and of copy conditions are read.

use crate::spelled::Spelled;
use review_expr_spelling::{read_copy, read_requirement};
use review_expr_terms::{CopyTerm, RequirementTerm, WordFault};
use std::alloc::Global;

impl Spelled for RequirementTerm {
    ghost use Rattle.review_expr_spelling.specs.Words.{requirement_reading, IsDeep, IsPattern};

    ghost reading = { requirement_reading };

    ghost is_deep = { IsDeep };

    ghost is_pattern = { IsPattern };

    fn read(alloc: Global, word: &str) -> Result<RequirementTerm, WordFault> {
        read_requirement(alloc, word)
    }
}

impl Spelled for CopyTerm {
    ghost use Rattle.review_expr_spelling.specs.Words.{copy_reading};

    ghost reading = { copy_reading };

    ghost is_deep = { λ _. ⊥ };

    ghost is_pattern = { λ _. ⊥ };

    fn read(alloc: Global, word: &str) -> Result<CopyTerm, WordFault> {
        read_copy(alloc, word)
    }
}
