//! The commands that `shardtool` has too, and that go through no device.

use crate::probe::Probe;
use crate::stop::Stop;
use script_lines::command::{Command, parse_words};
use script_lines::ranges::{ByteRange, bytes_in};
use script_lines::records::Form;
use script_lines::show::show_bytes;
use std::io::Write;
use xet_core_structures::file_structs::MDBFileInfo;
use xet_core_structures::shard_in_memory::MDBInMemoryShard;
use xet_core_structures::xorb_structs::MDBXorbInfo;

impl Probe {
    /// Runs such a command. `false` if the words are none.
    pub fn run_shared(&mut self, words: &[&str], out: &mut Vec<u8>) -> Result<bool, Stop> {
        match words.first() {
            Some(&("shard" | "file" | "xorb" | "size" | "hex")) => {}
            _ => return Ok(false),
        }
        match parse_words(self.alloc, words, Form::Full)? {
            Some(command) => self.run_command(command, out)?,
            None => return Err(Stop::Unreadable),
        }
        Ok(true)
    }

    fn run_command(&mut self, command: Command<'_>, out: &mut Vec<u8>) -> Result<(), Stop> {
        match command {
            Command::Shard { shard } => self.put_shard(shard, MDBInMemoryShard::new(self.alloc)),
            Command::File { shard, file } => self.add_file(shard, file),
            Command::Xorb { shard, xorb } => self.add_xorb(shard, xorb),
            Command::Size { buffer } => self.show_size(buffer, out),
            Command::Hex { buffer, range } => self.show_hex(buffer, range, out),
            _ => Err(Stop::Unreadable),
        }
    }

    fn add_file(&mut self, shard: &str, file: MDBFileInfo) -> Result<(), Stop> {
        let alloc = self.alloc;
        let shard = self.shard_mut(shard)?;
        Ok(shard.add_file_reconstruction_info(alloc, file)?)
    }

    fn add_xorb(&mut self, shard: &str, xorb: MDBXorbInfo) -> Result<(), Stop> {
        let alloc = self.alloc;
        Ok(self.shard_mut(shard)?.add_xorb_block(alloc, xorb)?)
    }

    fn show_size(&self, buffer: &str, out: &mut Vec<u8>) -> Result<(), Stop> {
        let size = self.buffer(buffer)?.len();
        Ok(writeln!(out, "{size}")?)
    }

    fn show_hex(
        &self,
        buffer: &str,
        range: Option<ByteRange>,
        out: &mut Vec<u8>,
    ) -> Result<(), Stop> {
        let bytes = self.buffer(buffer)?;
        let bytes = match range {
            Some(range) => bytes_in(bytes, range)?,
            None => bytes,
        };
        Ok(show_bytes(self.alloc, bytes, out)?)
    }
}
