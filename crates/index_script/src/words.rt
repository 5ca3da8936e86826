//! Words and numbers of a line.

ghost use Rattle.std.specs.Prelude.{◌≡◌, ◌≢◌, ◌<◌, ◌++◌, ◌∷◌, List, ℕ, IfSome, IfNone};
ghost use Rattle.std.specs.Fmt.{decimal};
ghost use Rattle.index_script.specs.Lines.{Lacks};
ghost use Rattle.index_script.specs.Requests.{IsNumber, IsBound, IsSmall, bound_text};

use std::ops::Bound;

/// The text before the first space, and the text behind it.
pub fn split_word(text: &str) -> Option<(&str, &str)>
    ensures some { IfSome result (λ parts. (text.now ≡ parts.0.now ++ 32 ∷ parts.1.now) × Lacks 32 parts.0.now) }
    ensures none { IfNone result (Lacks 32 text.now) }
{
    text.split_once(' ')
}

/// The number that a word writes: its digits, of which the first is 0 for 0 alone.
pub fn number(word: &str) -> Option<u64>
    ensures some { IfSome result (λ n. word.now ≡ decimal n) }
    ensures none { IfNone result (IsNumber word.now → ⊥) }
{
    let bytes = word.as_bytes();
    if bytes.is_empty() {
        return None;
    }
    // `parse` takes a plus and leading zeros too
    if bytes[0] == b'+' {
        return None;
    }
    if bytes[0] == b'0' && bytes.len() > 1 {
        return None;
    }
    match word.parse::<u64>() {
        Ok(number) => Some(number),
        Err(_) => None,
    }
}

/// The bound that a word writes: `=` and a number that is included, `!` and one that is excluded, or
/// `*` where there is none.
pub fn bound(word: &str) -> Option<Bound<u64>>
    ensures some { IfSome result (λ b. IsSmall b × (word.now ≡ bound_text b)) }
    ensures none { IfNone result (IsBound word.now → ⊥) }
{
    if word == "*" {
        return Some(Bound::Unbounded);
    }
    if let Some(digits) = marked(word, '=') {
        return match number(digits) {
            Some(number) => Some(Bound::Included(number)),
            None => None,
        };
    }
    let Some(digits) = marked(word, '!') else {
        return None;
    };
    match number(digits) {
        Some(number) => Some(Bound::Excluded(number)),
        None => None,
    }
}

// What follows an ASCII mark at the front.
fn marked(word: &str, mark: char) -> Option<&str>
    requires { mark < 128 }
    ensures some { IfSome result (λ rest. word.now ≡ mark ∷ rest.now) }
    ensures none { IfNone result ((rest : List ℕ) → word.now ≢ mark ∷ rest) }
{
    word.strip_prefix(mark)
}
