//! The trees of `merge` lines.

ghost use Rattle.std.specs.Prelude.{◌≡◌, ◌∷◌, ◌++◌, ℕ, List, [], map, IfOk, IfErr, IsOkAnd, MatchResult};
ghost use Rattle.script_lines.specs.declared.tree.NameTree.{NameTree as Tree};
ghost use Rattle.script_lines.specs.TreeWords.{words_of_line, IsTree};

use crate::words::{ParseError, parse_name};
use std::alloc::Global;

/// A tree of unions, with the names of buffers at its leaves.
#[derive(Drop)]
pub enum NameTree<'a> {
    Name(&'a str),
    Both(Box<NameTree<'a>>, Box<NameTree<'a>>),
}

/// The greatest number of parentheses in one another.
const MAX_DEPTH: u8 = 64;

/// The tree of words: a name is a tree, and so is a pair of trees in parentheses, up to 64 in one
/// another. `Unreadable` if the words are no tree.
pub fn parse_tree<'a>(alloc: Global, words: &[&'a str]) -> Result<NameTree<'a>, ParseError>
    ensures found { IfOk result
        (λ tree. IsTree tree 64 × (words_of_line tree ≡ map (λ word. word.now) words.now)) }
    ensures every { (tree : Tree) → IsTree tree 64
        → words_of_line tree ≡ map (λ word. word.now) words.now
        → IfErr result (λ e. e ≡ ParseError.OutOfMemory) }
{
    let (tree, rest) = parse_front(alloc, words, MAX_DEPTH)?;
    if !rest.is_empty() {
        return Err(ParseError::Unreadable);
    }
    Ok(tree)
}

// The tree that the words begin with, of at most this depth, and the words after it.
fn parse_front<'w, 'a>(
    alloc: Global,
    words: &'w [&'a str],
    depth: u8,
) -> Result<(NameTree<'a>, &'w [&'a str]), ParseError>
    ensures found { IfOk result
        (λ found. IsTree found.0 depth
        × (map (λ word. word.now) words.now
        ≡ words_of_line found.0 ++ map (λ word. word.now) found.1.now)) }
    ensures every { (tree : Tree) → (rest : List (List ℕ)) → IsTree tree depth
        → map (λ word. word.now) words.now ≡ words_of_line tree ++ rest
        → MatchResult result (λ found. map (λ word. word.now) found.1.now ≡ rest)
        (λ e. e ≡ ParseError.OutOfMemory) }
{
    let Some((first, rest)) = words.split_first() else {
        return Err(ParseError::Unreadable);
    };
    if *first != "(" {
        return Ok((NameTree::Name(parse_name(first)?), rest));
    }
    if depth == 0 {
        return Err(ParseError::Unreadable);
    }
    let (left, rest) = parse_front(alloc, rest, depth - 1)?;
    let (right, rest) = parse_front(alloc, rest, depth - 1)?;
    let rest = after_end(rest)?;
    let tree = NameTree::Both(Box::new(alloc, left)?, Box::new(alloc, right)?);
    Ok((tree, rest))
}

// The words after a closing parenthesis.
fn after_end<'w, 'a>(words: &'w [&'a str]) -> Result<&'w [&'a str], ParseError>
    ensures found { IfOk result
        (λ rest. map (λ word. word.now) words.now ≡ (41 ∷ []) ∷ map (λ word. word.now) rest.now) }
    ensures every { (rest : List (List ℕ)) → map (λ word. word.now) words.now ≡ (41 ∷ []) ∷ rest
        → IsOkAnd result (λ found. map (λ word. word.now) found.now ≡ rest) }
{
    match words.split_first() {
        Some((&")", rest)) => Ok(rest),
        _ => Err(ParseError::Unreadable),
    }
}
