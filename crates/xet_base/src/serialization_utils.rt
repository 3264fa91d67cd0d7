//! Little-endian codecs of numbers and hashes over readers and writers.
//!
//! Reading fails with `UnexpectedEof` only if the bytes end, and writing never does; a reader's or
//! writer's own `UnexpectedEof` becomes `Other`. A read that is interrupted is tried again; after
//! 2^64 - 1 reads for one value or slice the error is `TimedOut`.

ghost use Rattle.std.specs.Prelude.{◌≡◌, ◌*◌, ◌∷◌, [], length, take, flat_map, OnOk, IfOk, IfErr, ◌≢◌};
ghost use Rattle.std.specs.Io.KnownBytes.{Appends, Consumes};
ghost use Rattle.std.specs.IoError.{error_kind};
ghost use Rattle.xet_base.specs.Errors.{IsNoEnd};
ghost use Rattle.xet_base.specs.Bytes.{u32_bytes, u64_bytes, HasBytes};
ghost use Rattle.xet_base.specs.Input.{ReaderLacks};
ghost use Rattle.xet_base.specs.Hash.{hash_bytes};

use crate::fields::{split_hash, split_u32, split_u64};
use crate::merklehash::MerkleHash;
use std::io;
use std::io::{ErrorKind, Read, Write};

/// Appends the 32 bytes of a hash. The error is the writer's.
pub fn write_hash<W: Write>(writer: &mut W, hash: &MerkleHash) -> io::Result<()>
    ensures bytes { OnOk result
        (Appends (W.contents writer.old) (W.contents writer.new) (hash_bytes hash.now)) }
    ensures causes { IfErr result IsNoEnd }
{
    write_bytes(writer, &hash.as_bytes())
}

/// Appends one byte. The error is the writer's.
pub fn write_u8<W: Write>(writer: &mut W, value: u8) -> io::Result<()>
    ensures bytes { OnOk result (Appends (W.contents writer.old) (W.contents writer.new) (value ∷ [])) }
    ensures causes { IfErr result IsNoEnd }
{
    write_bytes(writer, &[value])
}

/// Appends four bytes, lowest first. The error is the writer's.
#[tactic(auto, unfolding(crate::specs::Bytes::u32_bytes))]
pub fn write_u32<W: Write>(writer: &mut W, value: u32) -> io::Result<()>
    ensures bytes { OnOk result
        (Appends (W.contents writer.old) (W.contents writer.new) (u32_bytes value)) }
    ensures causes { IfErr result IsNoEnd }
{
    write_bytes(writer, &value.to_le_bytes())
}

/// Appends eight bytes, lowest first. The error is the writer's.
#[tactic(auto, unfolding(crate::specs::Bytes::u64_bytes))]
pub fn write_u64<W: Write>(writer: &mut W, value: u64) -> io::Result<()>
    ensures bytes { OnOk result
        (Appends (W.contents writer.old) (W.contents writer.new) (u64_bytes value)) }
    ensures causes { IfErr result IsNoEnd }
{
    write_bytes(writer, &value.to_le_bytes())
}

/// Appends the bytes. The error is the writer's.
#[inline(always)]
pub fn write_bytes<W: Write>(writer: &mut W, bytes: &[u8]) -> io::Result<()>
    ensures bytes { OnOk result (Appends (W.contents writer.old) (W.contents writer.new) bytes.now) }
    ensures causes { IfErr result IsNoEnd }
{
    match writer.write_all(bytes) {
        Ok(()) => Ok(()),
        Err(error) => Err(device_error(error)),
    }
}

/// Appends each number as four bytes, lowest first. The error is the writer's.
pub fn write_u32s<W: Write>(writer: &mut W, values: &[u32]) -> io::Result<()>
    ensures bytes { OnOk result
        (Appends (W.contents writer.old) (W.contents writer.new) (flat_map u32_bytes values.now)) }
    ensures causes { IfErr result IsNoEnd }
{
    for value in values {
        write_u32(writer, *value)?;
    }
    Ok(())
}

/// Appends each number as eight bytes, lowest first. The error is the writer's.
pub fn write_u64s<W: Write>(writer: &mut W, values: &[u64]) -> io::Result<()>
    ensures bytes { OnOk result
        (Appends (W.contents writer.old) (W.contents writer.new) (flat_map u64_bytes values.now)) }
    ensures causes { IfErr result IsNoEnd }
{
    for value in values {
        write_u64(writer, *value)?;
    }
    Ok(())
}

/// Reads 32 bytes as a hash.
pub fn read_hash<R: Read>(reader: &mut R) -> io::Result<MerkleHash>
    ensures value { IfOk result
        (λ hash. Consumes (R.remaining reader.old) (R.remaining reader.new) (hash_bytes hash)) }
    ensures enough { OnOk result (HasBytes (R.remaining reader.old) 32) }
    ensures end { IfErr result
        (ReaderLacks (R.remaining reader.old) 32) }
{
    let mut bytes = [0u8; 32];
    read_bytes(reader, &mut bytes)?;
    let (hash, _) = split_hash(&bytes);
    Ok(hash)
}

/// Reads one byte.
pub fn read_u8<R: Read>(reader: &mut R) -> io::Result<u8>
    ensures value { IfOk result
        (λ value. Consumes (R.remaining reader.old) (R.remaining reader.new) (value ∷ [])) }
    ensures enough { OnOk result (HasBytes (R.remaining reader.old) 1) }
    ensures end { IfErr result
        (ReaderLacks (R.remaining reader.old) 1) }
{
    let mut bytes = [0u8; 1];
    read_bytes(reader, &mut bytes)?;
    Ok(bytes[0])
}

/// Reads four bytes as a number, lowest byte first.
pub fn read_u32<R: Read>(reader: &mut R) -> io::Result<u32>
    ensures value { IfOk result
        (λ value. Consumes (R.remaining reader.old) (R.remaining reader.new) (u32_bytes value)) }
    ensures enough { OnOk result (HasBytes (R.remaining reader.old) 4) }
    ensures end { IfErr result
        (ReaderLacks (R.remaining reader.old) 4) }
{
    let mut bytes = [0u8; 4];
    read_bytes(reader, &mut bytes)?;
    let (value, _) = split_u32(&bytes);
    Ok(value)
}

/// Reads eight bytes as a number, lowest byte first.
pub fn read_u64<R: Read>(reader: &mut R) -> io::Result<u64>
    ensures value { IfOk result
        (λ value. Consumes (R.remaining reader.old) (R.remaining reader.new) (u64_bytes value)) }
    ensures enough { OnOk result (HasBytes (R.remaining reader.old) 8) }
    ensures end { IfErr result
        (ReaderLacks (R.remaining reader.old) 8) }
{
    let mut bytes = [0u8; 8];
    read_bytes(reader, &mut bytes)?;
    let (value, _) = split_u64(&bytes);
    Ok(value)
}

/// Fills `slice` from the reader.
pub fn read_bytes<R: Read>(reader: &mut R, slice: &mut [u8]) -> io::Result<()>
    ensures value { OnOk result
        (Consumes (R.remaining reader.old) (R.remaining reader.new) slice.new) }
    ensures enough { OnOk result (HasBytes (R.remaining reader.old) (length slice.old)) }
    ensures end { IfErr result
        (ReaderLacks (R.remaining reader.old) (length slice.old)) }
{
    let mut filled = 0;
    for _turn in 0..u64::MAX {
        if filled == slice.len() {
            return Ok(());
        }
        match reader.read(&mut slice[filled..]) {
            Ok(0) => return Err(io::Error::from(ErrorKind::UnexpectedEof)),
            Ok(n) => filled += n,
            Err(error) if error.kind() == ErrorKind::Interrupted => {}
            Err(error) => return Err(device_error(error)),
        }
    }
    Err(io::Error::from(ErrorKind::TimedOut))
}

/// Reads four bytes for each element of `values`, lowest byte first.
pub fn read_u32s<R: Read>(reader: &mut R, values: &mut [u32]) -> io::Result<()>
    ensures value { OnOk result
        (Consumes (R.remaining reader.old) (R.remaining reader.new)
        (flat_map u32_bytes values.new)) }
    ensures enough { OnOk result (HasBytes (R.remaining reader.old) (4 * length values.old)) }
    ensures end { IfErr result
        (ReaderLacks (R.remaining reader.old) (4 * length values.old)) }
{
    for value in values.iter_mut() {
        *value = read_u32(reader)?;
    }
    Ok(())
}

/// Reads eight bytes for each element of `values`, lowest byte first.
pub fn read_u64s<R: Read>(reader: &mut R, values: &mut [u64]) -> io::Result<()>
    ensures value { OnOk result
        (Consumes (R.remaining reader.old) (R.remaining reader.new)
        (flat_map u64_bytes values.new)) }
    ensures enough { OnOk result (HasBytes (R.remaining reader.old) (8 * length values.old)) }
    ensures end { IfErr result
        (ReaderLacks (R.remaining reader.old) (8 * length values.old)) }
{
    for value in values.iter_mut() {
        *value = read_u64(reader)?;
    }
    Ok(())
}

// A reader or a writer that calls its own failure an end of the input is not believed:
// `UnexpectedEof` is kept for the end that a read of no bytes shows.
fn device_error(error: io::Error) -> io::Error
    ensures { error_kind result ≢ ErrorKind.UnexpectedEof }
{
    if error.kind() == ErrorKind::UnexpectedEof {
        io::Error::from(ErrorKind::Other)
    } else {
        error
    }
}
