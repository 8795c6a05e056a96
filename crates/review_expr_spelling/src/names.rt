//! Names that stand in words.
ghost use Rattle.std.specs.Prelude.{◌≡◌, IfOk, IfErr, Some};
ghost use Rattle.review_expr_terms.specs.Patterns.{is_pattern, IsDeepPattern, IsEnginePattern};
ghost use Rattle.review_expr_terms.specs.Words.{IsWordFault};
ghost use Rattle.review_expr_spelling.specs.Words.{in_value, IsUnread, formed};

use review_expr_terms::{Pattern, PatternFault, WordFault};
use review_names::{Bad, Form, Name};
use std::alloc::Global;

/// A name of a form.
pub fn read_name<F: Form>(alloc: Global, text: &str) -> Result<Name<F>, WordFault>
    ensures name { IfOk result (λ n. formed F.is_form text.now ≡ Some n) }
    ensures fault { IfErr result (IsUnread (formed F.is_form text.now)) }
{
    match Name::read(alloc, text) {
        Ok(name) => Ok(name),
        Err(Bad::Form) => Err(WordFault::BadValue),
        Err(Bad::Memory) => Err(WordFault::Memory),
    }
}

/// A pattern.
pub fn read_pattern(alloc: Global, text: &str) -> Result<Pattern, WordFault>
    ensures pattern { IfOk result (λ p. formed is_pattern text.now ≡ Some p) }
    ensures fault { IfErr result (IsWordFault (in_value (formed is_pattern text.now)) (IsDeepPattern text.now) (IsEnginePattern text.now)) }
{
    match Pattern::read(alloc, text) {
        Ok(pattern) => Ok(pattern),
        Err(PatternFault::Syntax) => Err(WordFault::BadValue),
        Err(PatternFault::Engine) => Err(WordFault::Engine),
        Err(PatternFault::Memory) => Err(WordFault::Memory),
    }
}
