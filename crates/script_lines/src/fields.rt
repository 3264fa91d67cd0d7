//! The fields of a shard's header and footer, by name.

use crate::show::{Show, show_joined, show_key};
use std::io;
use std::io::Write;
use xet_core_structures::merklehash::HMACKey;
use xet_core_structures::shard_format::{MDBShardFileFooter, MDBShardFileHeader};

/// A field, which is printed as `NAME=VALUE`.
#[derive(Clone, Copy)]
pub struct Field {
    pub name: &'static str,
    value: Value,
}

#[derive(Clone, Copy)]
enum Value {
    Number(u64),
    Numbers([u64; 6]),
    Key(HMACKey),
    Tag([u8; 32]),
}

impl Show for Field {
    fn show(&self, out: &mut Vec<u8>) -> io::Result<()> {
        let name = self.name;
        write!(out, "{name}=")?;
        match self.value {
            Value::Number(number) => write!(out, "{number}"),
            Value::Numbers(numbers) => show_numbers(numbers, out),
            Value::Key(key) => show_key(key, out),
            Value::Tag(tag) => show_tag(tag, out),
        }
    }
}

fn show_numbers(numbers: [u64; 6], out: &mut Vec<u8>) -> io::Result<()> {
    show_joined("", &numbers, ",", out)
}

fn show_tag(tag: [u8; 32], out: &mut Vec<u8>) -> io::Result<()> {
    for byte in tag {
        write!(out, "{byte:02x}")?;
    }
    Ok(())
}

// All fields are printed on one line.
impl Show for MDBShardFileHeader {
    fn show(&self, out: &mut Vec<u8>) -> io::Result<()> {
        show_joined("", &header_fields(self), " ", out)
    }
}

impl Show for MDBShardFileFooter {
    fn show(&self, out: &mut Vec<u8>) -> io::Result<()> {
        show_joined("", &footer_fields(self), " ", out)
    }
}

/// The fields of a header, in their order.
pub fn header_fields(header: &MDBShardFileHeader) -> [Field; 3] {
    [
        named_field("tag", Value::Tag(header.tag)),
        named_field("header_version", Value::Number(header.version)),
        named_field("footer_size", Value::Number(header.footer_size)),
    ]
}

/// The fields of a footer, in their order.
pub fn footer_fields(footer: &MDBShardFileFooter) -> [Field; 17] {
    macro_rules! number {
        ($name:ident) => {
            named_field(stringify!($name), Value::Number(footer.$name))
        };
    }
    [
        number!(version),
        number!(file_info_offset),
        number!(xorb_info_offset),
        number!(file_lookup_offset),
        number!(file_lookup_num_entry),
        number!(xorb_lookup_offset),
        number!(xorb_lookup_num_entry),
        number!(chunk_lookup_offset),
        number!(chunk_lookup_num_entry),
        named_field(
            "chunk_hash_hmac_key",
            Value::Key(footer.chunk_hash_hmac_key),
        ),
        number!(shard_creation_timestamp),
        number!(shard_key_expiry),
        named_field("_buffer", Value::Numbers(footer._buffer)),
        number!(stored_bytes_on_disk),
        number!(materialized_bytes),
        number!(stored_bytes),
        number!(footer_offset),
    ]
}

fn named_field(name: &'static str, value: Value) -> Field {
    Field { name, value }
}
