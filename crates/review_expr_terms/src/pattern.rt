//! Patterns that a whole text has to match.
ghost use Rattle.std.specs.List.{All, list_any};
ghost use Rattle.std.specs.Prelude.{◌≡◌, ◌<◌, IfOk, IfErr, is_some, true};
ghost use Rattle.regex.specs.{Patterns.find_str, Strings.matcher_pattern};
ghost use Rattle.review_expr_terms.specs.Patterns.{is_pattern, is_read, matches_whole, IsLawful, IsReadFrom};
ghost use Rattle.review_expr_terms.specs.inner.Words.{IsRefusedBy};

use regex::{Error, Matcher, Regex};
use review_names::Path;
use std::alloc::{AllocError, AllocFailed, Global};
use std::marker::Model;

/// A pattern that was compiled, held to the whole of a text. Contracts see its text.
#[derive(Drop)]
pub struct Pattern {
    text: String,
    whole: Box<Regex>,
}

impl Model for Pattern {
    ghost use Rattle.std.specs.Prelude.{ℕ, List, string_bytes};
    ghost use Rattle.review_expr_terms.specs.Patterns.{IsHeld};

    ghost Value = { List ℕ };

    ghost view = { λ p. string_bytes p.text };

    ghost invariant = { λ p. IsHeld (string_bytes p.text) p.whole.value };
}

/// Why a text gives no pattern.
#[derive(Clone, Copy, PartialEq, Eq)]
pub enum PatternFault {
    /// The text is no pattern, as one that nests deeper than the engine reads. It will not be read, however
    /// often it is tried.
    Syntax,
    /// The text is a pattern, and the engine refuses it all the same, as for its size.
    Engine,
    /// There was no memory for it. It may be tried again.
    Memory,
}

impl From<AllocError> for PatternFault {
    ghost use Rattle.std.specs.Prelude.{◌≡◌};
    ghost use Rattle.review_expr_terms.specs.declared.pattern.PatternFault.TheVariants.{Memory};

    ghost from_gives = { λ _ e. e ≡ Memory };

    fn from(_error: AllocError) -> PatternFault {
        PatternFault::Memory
    }
}

impl<T: Drop> From<AllocFailed<T>> for PatternFault {
    ghost use Rattle.std.specs.Prelude.{◌≡◌};
    ghost use Rattle.review_expr_terms.specs.declared.pattern.PatternFault.TheVariants.{Memory};

    ghost from_gives = { λ _ e. e ≡ Memory };

    fn from(_error: AllocFailed<T>) -> PatternFault {
        PatternFault::Memory
    }
}

fn compiled(alloc: Global, text: &str) -> Result<Regex, PatternFault>
    ensures read { IfOk result (λ r. IsReadFrom text.now r) }
    ensures pattern { IfOk result (λ r. is_read text.now ≡ true) }
    ensures refused { IfErr result (IsRefusedBy text.now) }
{
    match Regex::new(alloc, text) {
        Ok(regex) => Ok(regex),
        Err(Error::Syntax(_)) => Err(PatternFault::Syntax),
        Err(Error::OutOfMemory) => Err(PatternFault::Memory),
        Err(_) => Err(PatternFault::Engine),
    }
}

/// Whether the engine takes a pattern that the grammar reads.
fn is_taken(alloc: Global, text: &str) -> Result<bool, PatternFault>
    ensures pattern { IfOk result (λ taken. is_read text.now ≡ true) }
    ensures refused { IfErr result (IsRefusedBy text.now) }
    ensures not_engine { IfErr result (λ f. f ≡ PatternFault.Engine → ⊥) }
{
    match compiled(alloc, text) {
        Ok(_) => Ok(true),
        Err(PatternFault::Engine) => Ok(false),
        Err(fault) => Err(fault),
    }
}

/// Whether a matcher finds its pattern in a text, whose bytes are numbers below 256.
fn is_found(matcher: &mut Matcher<'_>, text: &str) -> bool
    ensures found { result ≡ is_some (find_str (matcher_pattern matcher.old) text.now 0) }
    ensures same { matcher_pattern matcher.new ≡ matcher_pattern matcher.old }
    ensures bytes { All (λ x. x < 256) text.now }
{
    matcher.is_match(text)
}

impl Pattern {
    /// Reads and compiles a pattern: a text that is one alone, and held to the whole. Syntax only
    /// where it is none, as where one of the two nests deeper than the engine reads; Engine only
    /// where it is one.
    pub fn read(alloc: Global, text: &str) -> Result<Pattern, PatternFault>
        ensures text { IfOk result (λ p. p ≡ text.now) }
        ensures pattern { IfOk result (λ p. is_pattern text.now ≡ true) }
        ensures fault { IfErr result (IsLawful text.now) }
    {
        let alone_taken = is_taken(alloc, text)?;
        let mut source = String::from_str(alloc, "\\A(?:")?;
        source.push_str(text)?;
        source.push_str(")\\z")?;
        let whole = compiled(alloc, source.as_str())?;
        if !alone_taken {
            return Err(PatternFault::Engine);
        }
        let text = String::from_str(alloc, text)?;
        let whole = Box::new(alloc, whole)?;
        Ok(Pattern { text, whole })
    }

    /// The text that the pattern was read from.
    pub fn as_str(&self) -> &str
        ensures { result.now ≡ self.now }
    {
        self.text.as_str()
    }

    /// Whether the whole text matches. An error where there was no memory to look.
    pub fn matches(&self, alloc: Global, text: &str) -> Result<bool, AllocError>
        ensures { IfOk result (λ b. b ≡ matches_whole self.now text.now) }
    {
        let mut matcher = self.whole.matcher(alloc)?;
        Ok(matcher.is_match(text))
    }

    /// Whether one of the paths matches as a whole. One matcher serves all of them. An error where
    /// there was no memory to look.
    pub fn matches_any(&self, alloc: Global, paths: &[Path]) -> Result<bool, AllocError>
        ensures { IfOk result (λ b. b ≡ list_any (matches_whole self.now) paths.now) }
    {
        let mut matcher = self.whole.matcher(alloc)?;
        for path in paths {
            if is_found(&mut matcher, path.as_str()) {
                return Ok(true);
            }
        }
        Ok(false)
    }
}
