//! Hashes in digits.

ghost use Rattle.std.specs.Prelude.{Some};
ghost use Rattle.xet_base.specs.Hex.{hash_hex};

use serde::{Described, Deserialize, Deserializer, Format, Serialize, Serializer};
use std::alloc::Global;
use std::fmt;
use xet_base::merklehash::MerkleHash;

/// A hash, as its 64 hexadecimal digits in text and in JSON.
#[derive(Clone, Copy)]
pub struct Hex(pub MerkleHash);

impl fmt::Display for Hex {
    ghost output = { λ hex. Some (hash_hex hex.0) };

    fn fmt<W: fmt::Write>(&self, f: &mut fmt::Formatter<W>) -> fmt::Result {
        let hash = self.0;
        write!(f, "{hash}")
    }
}

impl Described for Hex {}

impl Serialize for Hex {
    fn serialize<S: Serializer>(&self, out: &mut S) -> Result<(), S::Error> {
        out.collect_str(self)
    }
}

impl<'de> Deserialize<'de> for Hex {
    fn deserialize<F: Format>(
        alloc: Global,
        from: &mut Deserializer<'de, '_, F>,
    ) -> Result<Hex, F::Error> {
        let digits = String::deserialize(alloc, from)?;
        match MerkleHash::from_hex(digits.as_str()) {
            Ok(hash) => Ok(Hex(hash)),
            Err(_) => Err(from.custom("no 64 hexadecimal digits")),
        }
    }
}

/// A hash on a line of its own.
#[derive(Clone, Copy, Serialize)]
pub struct HashReport {
    pub hash: Hex,
}

impl fmt::Display for HashReport {
    ghost output = { λ report. Some (hash_hex report.hash.0) };

    fn fmt<W: fmt::Write>(&self, f: &mut fmt::Formatter<W>) -> fmt::Result {
        let hash = self.hash;
        write!(f, "{hash}")
    }
}
