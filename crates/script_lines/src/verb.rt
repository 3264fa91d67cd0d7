//! The words that commands begin with.

ghost use Rattle.std.specs.Prelude.{◌≡◌, ◌≢◌, MatchOption};
ghost use Rattle.script_lines.specs.Commands.{word_of};
ghost use Rattle.script_lines.specs.declared.verb.Verb.{Verb as AnyVerb};

/// Which command a line has, by its first word.
#[derive(Clone, Copy)]
pub enum Verb {
    Shard,
    Xorb,
    File,
    Write,
    Write2,
    Union,
    Diff,
    Merge,
    Export,
    Drop,
    Minimal,
    DropMin,
    Subset,
    Eligible,
    Find,
    Query,
    Size,
    Hex,
}

/// The verb that a word is, or `None` if it is none.
pub fn parse_verb(word: &str) -> Option<Verb>
    ensures { MatchOption result ((verb : AnyVerb) → word.now ≢ word_of verb)
        (λ verb. word.now ≡ word_of verb) }
{
    match word {
        "shard" => Some(Verb::Shard),
        "xorb" => Some(Verb::Xorb),
        "file" => Some(Verb::File),
        "write" => Some(Verb::Write),
        "write2" => Some(Verb::Write2),
        "union" => Some(Verb::Union),
        "diff" => Some(Verb::Diff),
        "merge" => Some(Verb::Merge),
        "export" => Some(Verb::Export),
        "drop" => Some(Verb::Drop),
        "minimal" => Some(Verb::Minimal),
        "dropmin" => Some(Verb::DropMin),
        "subset" => Some(Verb::Subset),
        "eligible" => Some(Verb::Eligible),
        "find" => Some(Verb::Find),
        "query" => Some(Verb::Query),
        "size" => Some(Verb::Size),
        "hex" => Some(Verb::Hex),
        _ => None,
    }
}
