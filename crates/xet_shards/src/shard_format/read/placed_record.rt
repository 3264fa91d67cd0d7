//! Records in memory as they are stored.

ghost use Rattle.std.specs.Prelude.{◌≡◌, drop};

/// A record's header, and the bytes from the rows after it on.
#[derive(Clone, Copy)]
pub struct PlacedRecord<'a, H> {
    pub header: H,
    pub rows: &'a [u8],
}

/// The bytes from an offset on; none if it is past the end.
pub fn bytes_from(bytes: &[u8], offset: u64) -> &[u8]
    ensures { result.now ≡ drop offset bytes.now }
{
    if offset >= bytes.len() as u64 {
        return &bytes[bytes.len()..];
    }
    &bytes[offset as usize..]
}
