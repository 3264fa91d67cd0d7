//! Unions of many buffers, by a tree, whether buffers agree, and what a check of one finds.

use crate::placed::parse_selection;
use crate::probe::Probe;
use crate::stop::Stop;
use placed_shards::findings::{find_disagreements, find_malformed};
use placed_shards::selection::Selection;
use placed_shards::strict::Agreed;
use script_lines::show::show_line;
use script_lines::words::parse_u64;
use shard_bytes::agree::merge_agreeing_bytes;
use shard_bytes::check::check_bytes;
use std::alloc::Global;
use xet_core_structures::record_reader::FormatVersion;
use xet_core_structures::set_operations::{MergePlan, shard_union_tree};

impl Probe {
    /// Runs a command on many buffers. `false` if the words are no such command.
    pub fn run_on_sets(&mut self, words: &[&str], out: &mut Vec<u8>) -> Result<bool, Stop> {
        match words {
            ["set_tree", name, words @ ..] => self.unite(name, words),
            ["set_agreeing", name, how, from, to, names @ ..] => {
                self.unite_agreeing(name, parse_selection(how, from, to)?, names, out)
            }
            ["disagreements", names @ ..] => self.show_disagreements(Selection::ALL, names, out),
            ["disagreements_in", how, from, to, names @ ..] => {
                self.show_disagreements(parse_selection(how, from, to)?, names, out)
            }
            ["malformed", names @ ..] => self.show_malformed(Selection::ALL, names, out),
            ["malformed_in", how, from, to, names @ ..] => {
                self.show_malformed(parse_selection(how, from, to)?, names, out)
            }
            ["check", name] => self.show_findings(name, out),
            _ => return Ok(false),
        }?;
        Ok(true)
    }

    fn unite(&mut self, name: &str, words: &[&str]) -> Result<(), Stop> {
        let (tree, names) = split_at_with(words)?;
        let tree = parse_tree(self.alloc, tree)?;
        let bytes = shard_union_tree(self.alloc, &tree, self.buffers(names)?.as_slice())?;
        self.put_buffer(name, bytes)
    }

    fn unite_agreeing(
        &mut self,
        name: &str,
        selection: Selection,
        names: &[&str],
        out: &mut Vec<u8>,
    ) -> Result<(), Stop> {
        let merged = merge_agreeing_bytes(
            self.alloc,
            self.buffers(names)?.as_slice(),
            &selection,
            FormatVersion::V3,
        )?;
        match merged {
            Agreed::Made(bytes) => self.put_buffer(name, bytes),
            Agreed::Disagreements(found) => Ok(show_line(&found, out)?),
            Agreed::Malformed(found) => Ok(show_line(&found, out)?),
        }
    }

    fn show_disagreements(
        &self,
        selection: Selection,
        names: &[&str],
        out: &mut Vec<u8>,
    ) -> Result<(), Stop> {
        let found = find_disagreements(self.alloc, self.buffers(names)?.as_slice(), &selection)?;
        Ok(show_line(&found, out)?)
    }

    fn show_malformed(
        &self,
        selection: Selection,
        names: &[&str],
        out: &mut Vec<u8>,
    ) -> Result<(), Stop> {
        let found = find_malformed(self.alloc, self.buffers(names)?.as_slice(), &selection)?;
        Ok(show_line(&found, out)?)
    }

    fn show_findings(&self, name: &str, out: &mut Vec<u8>) -> Result<(), Stop> {
        let found = check_bytes(self.alloc, self.buffer(name)?)?;
        Ok(show_line(&found, out)?)
    }
}

/// The words before and after the word `with`. `Unreadable` if the word is missing.
pub fn split_at_with<'w, 'a>(words: &'w [&'a str]) -> Result<(&'w [&'a str], &'w [&'a str]), Stop> {
    for (i, word) in words.iter().enumerate() {
        if *word == "with" {
            return Ok((&words[..i], &words[i + 1..]));
        }
    }
    Err(Stop::Unreadable)
}

// The tree of words in postfix order: a number is a leaf, and `+` the union of the two trees before
// it.
fn parse_tree(alloc: Global, words: &[&str]) -> Result<MergePlan, Stop> {
    let mut trees = Vec::new(alloc);
    for word in words {
        let tree = match *word {
            "+" => {
                let (Some(right), Some(left)) = (trees.pop(), trees.pop()) else {
                    return Err(Stop::Unreadable);
                };
                MergePlan::Both(Box::new(alloc, left)?, Box::new(alloc, right)?)
            }
            index => MergePlan::Leaf(parse_u64(index)? as usize),
        };
        trees.push(tree)?;
    }
    match trees.pop() {
        Some(tree) if trees.is_empty() => Ok(tree),
        _ => Err(Stop::Unreadable),
    }
}
