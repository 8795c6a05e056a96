//! How far asking has come.
use review_chain::Walked;

/// The step that a delivery asks next. All that the steps before it ask is known.
#[derive(Clone, Copy)]
pub enum Step {
    /// What a command or a question asks of itself.
    First,
    /// What it asks by the change that it names.
    ByChange,
    /// The files of the ancestors of its project, one after the other.
    Above,
    /// What it asks by the file that was read.
    ByFile,
    /// What a submit asks for its chain, one look-up after the other: from the walk that the look-up before it has come to, if it was begun.
    Last(Option<Walked>),
}
