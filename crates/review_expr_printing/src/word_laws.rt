//! Laws of words.
ghost use Rattle.std.specs.Prelude.{◌≡◌, ◌∷◌, ℕ, List};
ghost use Rattle.review_expr_terms.specs.Words.{NoTerm, Bad};
ghost use Rattle.review_expr_spelling.specs.Words.{copy_reading, requirement_reading};
ghost use Rattle.review_expr_printing.specs.Written.{AreOneWord, ReadAgain, copy_word, requirement_word};

/// The word of a copy condition's term is read as that term.
#[tactic(auto, using(crate::proofs::CopyWords::copy_again))]
pub fn copy_word_tells()
    ensures { ReadAgain copy_reading copy_word }
{}

/// The word of a submit requirement's term is read as that term.
#[tactic(auto, using(crate::proofs::RequirementWords::requirement_again))]
pub fn requirement_word_tells()
    ensures { ReadAgain requirement_reading requirement_word }
{}

/// The word of a copy condition's term is one word of an expression, and neither an operator nor
/// negated.
#[tactic(auto, using(crate::proofs::CopyWords::copy_stands))]
pub fn copy_word_stands()
    ensures { AreOneWord copy_reading copy_word }
{}

/// The word of a submit requirement's term is one word of an expression, and neither an operator
/// nor negated.
#[tactic(auto, using(crate::proofs::RequirementWords::requirement_stands))]
pub fn requirement_word_stands()
    ensures { AreOneWord requirement_reading requirement_word }
{}

/// A word with a minus in front is no term of either kind.
#[tactic(auto, using(crate::proofs::RequirementWords::requirement_minus, crate::proofs::CopyWords::copy_minus))]
pub fn minus_is_no_term()
    ensures requirement { (rest : List ℕ) → requirement_reading (45 ∷ rest) ≡ Bad NoTerm }
    ensures copy { (rest : List ℕ) → copy_reading (45 ∷ rest) ≡ Bad NoTerm }
{}
