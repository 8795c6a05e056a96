//! Laws of forms, as contracts of calls that do nothing.
ghost use Rattle.review_names.specs.Laws.{ReadsNumerals, LabelsAreOfForm};

/// A number below 2^64 is read from the text that shows it in decimal without leading zeros, and from no other text.
pub fn number_tells()
    ensures { ReadsNumerals }
{}

/// The name of a label is at most 40 letters, digits and hyphens, a letter first, and a letter right after each hyphen.
pub fn label_form()
    ensures { LabelsAreOfForm }
{}
