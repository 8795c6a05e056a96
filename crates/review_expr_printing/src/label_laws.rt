//! Laws of the words of terms, in other words than those by which they are read: a mistake that code and definition share would show here.
ghost use Rattle.review_expr_printing.specs.LabelWords.{LabelValuesAreSo, LabelWordsAreSo};

/// The value of a `label:` word is a label term exactly where it is a label's name, the longest front that is one, then a comparison, then at most
/// a user or group part and a count, in either order, each behind a comma.
pub fn label_values()
    ensures { LabelValuesAreSo }
{}

/// A word is a label term exactly where it is `label:` and the value of that term, bare or the whole of it between two quotes. No value has a quote in
/// it, and no comparison of a label term is met by 0.
pub fn label_words()
    ensures { LabelWordsAreSo }
{}
