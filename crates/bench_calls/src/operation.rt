//! The operations and their numbers.

ghost use Rattle.std.specs.Prelude.{◌≡◌, IfSome};
ghost use Rattle.bench_calls.specs.Answers.{number_of};

/// An operation on the bytes of one or two shards.
#[derive(Clone, Copy)]
pub enum Operation {
    Load,
    FindFiles,
    SearchFiles,
    QueryChunks,
    Union,
    Difference,
    Export,
    ReadMinimal,
    WriteMinimal,
    ReadFiles,
    ReadXorbs,
    Serialize,
    AddFiles,
    AddXorbs,
    QueryInMemory,
    UniteInMemory,
    SubtractInMemory,
    Hmac,
    FindFilesInBytes,
    CopyInMemory,
}

impl Operation {
    /// The operation with this number, 0 to 19 in the order of the variants.
    #[tactic(auto, unfolding(crate::specs::Answers::number_of))]
    pub fn of_number(number: u32) -> Option<Operation>
        ensures { IfSome result (λ operation. number_of operation ≡ number) }
    {
        Some(match number {
            0 => Operation::Load,
            1 => Operation::FindFiles,
            2 => Operation::SearchFiles,
            3 => Operation::QueryChunks,
            4 => Operation::Union,
            5 => Operation::Difference,
            6 => Operation::Export,
            7 => Operation::ReadMinimal,
            8 => Operation::WriteMinimal,
            9 => Operation::ReadFiles,
            10 => Operation::ReadXorbs,
            11 => Operation::Serialize,
            12 => Operation::AddFiles,
            13 => Operation::AddXorbs,
            14 => Operation::QueryInMemory,
            15 => Operation::UniteInMemory,
            16 => Operation::SubtractInMemory,
            17 => Operation::Hmac,
            18 => Operation::FindFilesInBytes,
            19 => Operation::CopyInMemory,
            _ => return None,
        })
    }
}
