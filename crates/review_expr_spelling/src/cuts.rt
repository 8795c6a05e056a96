//! Parts of a word.
ghost use Rattle.std.specs.Prelude.{◌≡◌, ◌<◌, option_map, Some};
ghost use Rattle.review_expr_spelling.specs.Values.{behind, cut_at, key_and_value, unquoted};

/// What follows a front, where the text begins with it.
pub fn behind<'a>(text: &'a str, front: &str) -> Option<&'a str>
    ensures { option_map (λ x. x.now) result ≡ behind front.now text.now }
{
    text.strip_prefix(front)
}

/// What stands before the first of a character in a text, and what stands behind it.
pub fn cut_at(text: &str, mark: char) -> Option<(&str, &str)>
    requires { mark < 128 }
    ensures { option_map (λ x. (x.0.now, x.1.now)) result ≡ cut_at mark text.now }
{
    text.split_once(mark)
}

/// A value without its quotes, which stand round the whole of it if there are any.
#[tactic(auto, unfolding(crate::specs::Values::unquoted))]
fn unquoted(text: &str) -> Option<&str>
    ensures { option_map (λ x. x.now) result ≡ unquoted text.now }
{
    let Some((front, rest)) = cut_at(text, '"') else {
        return Some(text);
    };
    if !front.is_empty() {
        return None;
    }
    let (inner, after) = cut_at(rest, '"')?;
    if after.is_empty() { Some(inner) } else { None }
}

/// The key and the value of a word.
#[tactic(auto, unfolding(crate::specs::Values::key_and_value))]
pub fn key_and_value(word: &str) -> Option<(&str, &str)>
    ensures { option_map (λ x. (x.0.now, x.1.now)) result ≡ key_and_value word.now }
{
    let (key, value) = cut_at(word, ':')?;
    Some((key, unquoted(value)?))
}
