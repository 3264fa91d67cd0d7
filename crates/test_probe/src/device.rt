//! Devices over bytes in memory that fail by a plan: a source, also as a reader, that counts its
//! costs, and an output.

ghost use Rattle.std.specs.Prelude.{◌≡◌, ◌≤◌, ◌<◌, ◌+◌, IfNone, IfSome, Some};

use crate::stop::Stop;
use script_lines::words::parse_u64;
use std::alloc::{AllocError, Global};
use std::io;
use std::io::{ErrorKind, Read, Write};
use xet_core_structures::count::Count;
use xet_core_structures::source::{MemorySource, ShardSource};

/// How the devices of a command deviate from ones that work.
#[derive(Clone, Copy)]
pub struct Plan {
    /// The call that fails, if any.
    pub fault: Option<Fault>,
    /// The device whose call fails, where a command has several.
    pub target: Target,
    /// Whether each read and each write transfers one byte.
    pub is_slow: bool,
    /// Whether a command with a failure runs once more, on the same devices.
    pub runs_again: bool,
    /// The number of bytes that an output has room for before the command runs.
    pub room: u64,
}

/// A device of a command.
#[derive(Clone, Copy, PartialEq, Eq)]
pub enum Target {
    /// The source of the first input.
    First,
    /// The source of the second input.
    Second,
    /// The output.
    Output,
}

impl Plan {
    /// A plan of devices that work.
    pub fn new() -> Plan {
        Plan {
            fault: None,
            target: Target::First,
            is_slow: false,
            runs_again: false,
            room: 0,
        }
    }

    /// The plan of one of the devices, without a failure that is another's.
    pub fn of(self, device: Target) -> Plan {
        let fault = if self.target == device {
            self.fault
        } else {
            None
        };
        Plan { fault, ..self }
    }

    /// The same plan, but with the failure of the call of this number, of whatever kind.
    pub fn failing_at(self, turn: u64) -> Plan {
        let fault = Some(Fault {
            operation: Operation::Call,
            turn,
            kind: ErrorKind::Other,
        });
        Plan { fault, ..self }
    }

    // The failure of the next call, if it is the one that fails.
    fn failure_of(&mut self, operation: Operation) -> Option<io::Error> {
        let fault = self.fault?;
        if fault.operation != operation && fault.operation != Operation::Call {
            return None;
        }
        self.fault = Some(Fault {
            turn: fault.turn.saturating_sub(1),
            ..fault
        });
        if fault.turn != 1 {
            return None;
        }
        Some(io::Error::from(fault.kind))
    }

    // How many of so many bytes a call transfers at most.
    fn most(&self, len: usize) -> usize
        ensures within { result ≤ len }
        ensures some { 0 < len → 0 < result }
    {
        if self.is_slow { len.min(1) } else { len }
    }
}

/// One call of a device that fails.
#[derive(Clone, Copy)]
pub struct Fault {
    pub operation: Operation,
    /// Which of these calls fails, from 1.
    pub turn: u64,
    pub kind: ErrorKind,
}

impl Fault {
    /// The failure that words `OPERATION TURN KIND` tell; its kind is `Other` if it is left out.
    pub fn parse(words: &[&str]) -> Result<Fault, Stop> {
        let (operation, turn, kind) = match words {
            [operation, turn] => (operation, turn, "Other"),
            [operation, turn, kind] => (operation, turn, *kind),
            _ => return Err(Stop::Unreadable),
        };
        Ok(Fault {
            operation: Operation::parse(operation)?,
            turn: parse_u64(turn)?,
            kind: parse_kind(kind)?,
        })
    }
}

fn parse_kind(word: &str) -> Result<ErrorKind, Stop> {
    match word {
        "Other" => Ok(ErrorKind::Other),
        "Interrupted" => Ok(ErrorKind::Interrupted),
        "BrokenPipe" => Ok(ErrorKind::BrokenPipe),
        "UnexpectedEof" => Ok(ErrorKind::UnexpectedEof),
        "OutOfMemory" => Ok(ErrorKind::OutOfMemory),
        "WriteZero" => Ok(ErrorKind::WriteZero),
        _ => Err(Stop::Unreadable),
    }
}

/// A kind of call of a device.
#[derive(Clone, Copy, PartialEq, Eq)]
pub enum Operation {
    Read,
    Seek,
    Length,
    Position,
    Write,
    /// Any of the others.
    Call,
}

impl Operation {
    fn parse(word: &str) -> Result<Operation, Stop> {
        match word {
            "read" => Ok(Operation::Read),
            "seek" => Ok(Operation::Seek),
            "length" => Ok(Operation::Length),
            "position" => Ok(Operation::Position),
            "write" => Ok(Operation::Write),
            "call" => Ok(Operation::Call),
            _ => Err(Stop::Unreadable),
        }
    }
}

/// A source that counts its seeks and bytes, and fails once by its plan.
#[derive(Drop)]
pub struct Device<'a> {
    /// The bytes of the source.
    pub bytes: &'a [u8],
    inner: MemorySource<'a>,
    plan: Plan,
    /// The seeks that were made, failed ones too.
    pub seeks_made: u64,
    /// The bytes that were read.
    pub bytes_read: u64,
    seeks: Count,
    failures: Count,
    /// The error of the last call that failed by the plan.
    pub last_failure: Option<io::Error>,
}

impl<'a> Device<'a> {
    /// A source at the first of these bytes.
    pub fn new(bytes: &'a [u8], plan: Plan) -> Device<'a> {
        Device {
            bytes,
            inner: MemorySource::new(bytes),
            plan,
            seeks_made: 0,
            bytes_read: 0,
            seeks: Count::new(),
            failures: Count::new(),
            last_failure: None,
        }
    }

    // The failure of this call, if the plan has one.
    fn failure_of(&mut self, operation: Operation) -> Option<io::Error>
        ensures inner { self.new.inner ≡ self.old.inner }
        ensures seeks { self.new.seeks ≡ self.old.seeks }
        ensures works { IfNone result
            ((self.new.failures ≡ self.old.failures)
            × (self.new.last_failure ≡ self.old.last_failure)) }
        ensures fails { IfSome result
            (λ e. (self.new.failures.value ≡ self.old.failures.value + 1)
            × (self.new.last_failure ≡ Some e)) }
    {
        let error = self.plan.failure_of(operation)?;
        self.failures.add(1);
        self.last_failure = Some(error);
        Some(error)
    }
}

impl<'a> ShardSource for Device<'a> {
    ghost meaning = { λ s. let inner = ⟦<MemorySource<'a> as ShardSource>⟧.meaning s.inner in
        record inner {
          seeks = inner.seeks + s.seeks.value;
          failures = s.failures.value;
          last_failure = s.last_failure;
        } };

    fn read_some(&mut self, slice: &mut [u8]) -> io::Result<usize> {
        if let Some(error) = self.failure_of(Operation::Read) {
            return Err(error);
        }
        let most = self.plan.most(slice.len());
        let n = self.inner.read_some(&mut slice[..most])?;
        self.bytes_read = self.bytes_read.saturating_add(n as u64);
        Ok(n)
    }

    fn length(&mut self) -> io::Result<u64> {
        if let Some(error) = self.failure_of(Operation::Length) {
            return Err(error);
        }
        self.inner.length()
    }

    fn position(&mut self) -> io::Result<u64> {
        if let Some(error) = self.failure_of(Operation::Position) {
            return Err(error);
        }
        self.inner.position()
    }

    fn seek_to(&mut self, to: u64) -> io::Result<()> {
        self.seeks_made = self.seeks_made.saturating_add(1);
        if let Some(error) = self.failure_of(Operation::Seek) {
            self.seeks.add(1);
            return Err(error);
        }
        self.inner.seek_to(to)
    }
}

impl Read for Device<'_> {
    fn read(&mut self, buf: &mut [u8]) -> io::Result<usize> {
        self.read_some(buf)
    }
}

/// An output to memory that fails once by its plan.
#[derive(Drop)]
pub struct Output {
    /// What was written.
    pub bytes: Vec<u8>,
    plan: Plan,
    /// Whether a write failed.
    pub has_failed: bool,
}

impl Output {
    /// An output with nothing written, and with the room that the plan says.
    pub fn new(alloc: Global, plan: Plan) -> Result<Output, AllocError> {
        Ok(Output {
            bytes: Vec::with_capacity(alloc, plan.room as usize)?,
            plan,
            has_failed: false,
        })
    }
}

impl Write for Output {
    fn write(&mut self, buf: &[u8]) -> io::Result<usize> {
        if let Some(error) = self.plan.failure_of(Operation::Write) {
            self.has_failed = true;
            // A write that takes nothing is how this error comes about.
            if error.kind() == ErrorKind::WriteZero {
                return Ok(0);
            }
            return Err(error);
        }
        let most = self.plan.most(buf.len());
        self.bytes.extend_from_slice(&buf[..most])?;
        Ok(most)
    }

    fn flush(&mut self) -> io::Result<()> {
        Ok(())
    }
}
