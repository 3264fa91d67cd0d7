//! The named shards and buffers, and the commands on them.

use crate::device::{Fault, Plan, Target};
use crate::stop::Stop;
use script_lines::words::{parse_name, parse_u64};
use std::alloc::Global;
use std::collections::BTreeMap;
use xet_core_structures::shard_in_memory::MDBInMemoryShard;

/// The shards and buffers made so far, by name, and how the devices work. Shards and buffers have
/// separate names.
#[derive(Drop)]
pub struct Probe {
    pub alloc: Global,
    shards: BTreeMap<String, MDBInMemoryShard>,
    buffers: BTreeMap<String, Vec<u8>>,
    pub plan: Plan,
    pub shows_costs: bool,
}

impl Probe {
    /// No shards and buffers, and devices that work.
    pub fn new(alloc: Global) -> Probe {
        Probe {
            alloc,
            shards: BTreeMap::new(alloc),
            buffers: BTreeMap::new(alloc),
            plan: Plan::new(),
            shows_costs: false,
        }
    }

    /// Runs a command and appends what it prints.
    pub fn run(&mut self, words: &[&str], out: &mut Vec<u8>) -> Result<(), Stop> {
        let is_run = self.switch(words)?
            || self.run_shared(words, out)?
            || self.run_on_shards(words)?
            || self.show_shards(words, out)?
            || self.run_on_buffers(words, out)?
            || self.show_cuts(words, out)?
            || self.show_views(words, out)?
            || self.show_sections(words, out)?
            || self.run_on_sets(words, out)?
            || self.run_on_placed(words, out)?
            || self.show_values(words, out)?
            || self.show_records(words, out)?
            || self.run_each_failure(words, out)?;
        if is_run {
            return Ok(());
        }
        self.run_through_devices(words, out)
    }

    // Switches how the devices work. `false` if the words are no such switch.
    fn switch(&mut self, words: &[&str]) -> Result<bool, Stop> {
        match words {
            ["fail", "none"] => self.plan.fault = None,
            ["fail", fault @ ..] => self.plan.fault = Some(Fault::parse(fault)?),
            ["fail_in", "first"] => self.plan.target = Target::First,
            ["fail_in", "second"] => self.plan.target = Target::Second,
            ["fail_in", "output"] => self.plan.target = Target::Output,
            ["slow", "on"] => self.plan.is_slow = true,
            ["slow", "off"] => self.plan.is_slow = false,
            ["room", bytes] => self.plan.room = parse_u64(bytes)?,
            ["costs", "on"] => self.shows_costs = true,
            ["costs", "off"] => self.shows_costs = false,
            _ => return Ok(false),
        }
        Ok(true)
    }

    /// The shard of this name. `Unreadable` if there is none.
    pub fn shard(&self, name: &str) -> Result<&MDBInMemoryShard, Stop> {
        self.shards.get(name).ok_or(Stop::Unreadable)
    }

    /// The same, to be changed.
    pub fn shard_mut(&mut self, name: &str) -> Result<&mut MDBInMemoryShard, Stop> {
        self.shards.get_mut(name).ok_or(Stop::Unreadable)
    }

    /// The bytes of the buffer of this name. `Unreadable` if there is none.
    pub fn buffer(&self, name: &str) -> Result<&[u8], Stop> {
        Ok(self.buffers.get(name).ok_or(Stop::Unreadable)?.as_slice())
    }

    /// The same, to be changed.
    pub fn buffer_mut(&mut self, name: &str) -> Result<&mut Vec<u8>, Stop> {
        self.buffers.get_mut(name).ok_or(Stop::Unreadable)
    }

    /// The bytes of the buffers of these names. `Unreadable` if there is none of a name.
    pub fn buffers(&self, names: &[&str]) -> Result<Vec<&[u8]>, Stop> {
        let mut buffers = Vec::new(self.alloc);
        for name in names {
            buffers.push(self.buffer(name)?)?;
        }
        Ok(buffers)
    }

    /// Stores a shard under a name, and replaces one that has the name.
    pub fn put_shard(&mut self, name: &str, shard: MDBInMemoryShard) -> Result<(), Stop> {
        let name = String::from_str(self.alloc, parse_name(name)?)?;
        self.shards.insert(name, shard)?;
        Ok(())
    }

    /// Stores bytes under a name, and replaces those that have the name.
    pub fn put_buffer(&mut self, name: &str, bytes: Vec<u8>) -> Result<(), Stop> {
        let name = String::from_str(self.alloc, parse_name(name)?)?;
        self.buffers.insert(name, bytes)?;
        Ok(())
    }
}
