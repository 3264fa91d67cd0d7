//! A line: its end, whether it is skipped, and its words.

ghost use Rattle.std.specs.Prelude.{◌≡◌, ◌↔◌, ◌⊎◌, [], ◌∷◌, ◌++◌, map, IsTrue, IfNone, IfSome, IfOk};
ghost use Rattle.script_lines.specs.Words.{AreWordsOf, EndsInSeparator, IsParenthesis, IsSkipped, without_last};

use std::alloc::{AllocError, Global};

/// The line without its end: without one LF at the end, and then without one CR.
pub fn without_end(line: &[u8]) -> &[u8]
    ensures { result.now ≡ without_last 13 (without_last 10 line.now) }
{
    without_last(without_last(line, b'\n'), b'\r')
}

fn without_last(line: &[u8], byte: u8) -> &[u8]
    ensures { result.now ≡ without_last byte line.now }
{
    line.strip_suffix(&[byte]).unwrap_or(line)
}

/// Whether a line without its end is skipped: it is empty, or begins with `#`.
pub fn is_skipped(line: &[u8]) -> bool
    ensures { IsTrue result ↔ IsSkipped line.now }
{
    line.is_empty() || line[0] == b'#'
}

/// The words of a line, separated by one or more spaces. A parenthesis is a word by itself, with or
/// without spaces beside it.
pub fn split_words(alloc: Global, text: &str) -> Result<Vec<&str>, AllocError>
    ensures { IfOk result (λ words. AreWordsOf text.now (map (λ word. word.now) words.items)) }
{
    let mut words = Vec::new(alloc);
    for part in text.split_inclusive([' ', '(', ')']) {
        let (word, parenthesis) = split_parenthesis(part);
        if !word.is_empty() {
            words.push(word)?;
        }
        if let Some(parenthesis) = parenthesis {
            words.push(parenthesis)?;
        }
    }
    Ok(words)
}

// The word before the end of a part of a line, and its end, if that is a parenthesis.
fn split_parenthesis(part: &str) -> (&str, Option<&'static str>)
    ensures parenthesis { IfSome result.1
        (λ end. IsParenthesis end.now × (part.now ≡ result.0.now ++ end.now)) }
    ensures none { IfNone result.1
        ((part.now ≡ result.0.now ++ 32 ∷ [])
        ⊎ ((part.now ≡ result.0.now) × ¬ (EndsInSeparator part.now))) }
{
    if let Some(word) = part.strip_suffix('(') {
        (word, Some("("))
    } else if let Some(word) = part.strip_suffix(')') {
        (word, Some(")"))
    } else if let Some(word) = part.strip_suffix(' ') {
        (word, None)
    } else {
        (part, None)
    }
}
