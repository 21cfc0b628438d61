//! Where bytes are written to.
ghost use Rattle.std.specs.Prelude.{◌≡◌, ℕ, ◌+◌, ◌≤◌, List, [], length, take, Option, Some, IfOk, OnErr};
ghost use Rattle.std.specs.List.{flat_map};
ghost use Rattle.ybase_output.specs.Sink.{followed_by, failed_calls};
ghost use Rattle.ybase_output.specs.Writing.{Writes, side};

use crate::count::CallCount;
use std::alloc::{AllocError, Global};
use thiserror::Error;

/// What was to be written wasn't.
#[derive(Clone, Copy, Debug, PartialEq, Eq, Error)]
#[error("write failed")]
pub struct SinkFault;

/// Takes bytes, perhaps only some of what it is given at a time.
pub trait Sink {
    /// The bytes that it has taken, where it tells them.
    ghost taken: { Self → Option (List ℕ) };

    /// How many of its calls failed: answered an error, or took nothing of a part that isn't empty.
    ghost failures: { Self → ℕ };

    /// Takes a beginning of the part, and answers its length.
    fn write(&mut self, part: &[u8]) -> Result<usize, SinkFault>
        ensures length { IfOk result (λ n. n ≤ length part.now) }
        ensures ok { IfOk result (λ n. taken self.new
            ≡ followed_by (taken self.old) (take n part.now)) }
        ensures err { OnErr result (taken self.new ≡ taken self.old) }
        ensures counted { failures self.new ≡ failures self.old + failed_calls result part.now };
}

/// Writes bytes until all are taken. After a failed call it makes no other, and what is taken is a beginning of them.
pub fn write_all<S: Sink>(sink: &mut S, bytes: &[u8]) -> Result<(), SinkFault>
    ensures { Writes (side S.taken S.failures sink.old)
        (side S.taken S.failures sink.new) bytes.now result }
{
    let mut at = 0;
    while at < bytes.len() {
        let (_, rest) = bytes.split_at(at);
        let n = sink.write(rest)?;
        if n == 0 {
            return Err(SinkFault);
        }
        at += n;
    }
    Ok(())
}

/// Writes some texts, one after the other. After a failed call it makes no other.
pub fn write_texts<S: Sink>(sink: &mut S, texts: &[&str]) -> Result<(), SinkFault>
    ensures { Writes (side S.taken S.failures sink.old) (side S.taken S.failures sink.new)
        (flat_map (λ t. t.now) texts.now) result }
{
    for text in texts {
        write_all(sink, text.as_bytes())?;
    }
    Ok(())
}

/// A sink for tests, into a buffer taken beforehand: it takes so many bytes a call, and one of its calls may fail.
#[derive(Drop)]
pub struct Cut {
    buffer: Vec<u8>,
    room: usize,
    bytes_per_call: usize,
    failing_call: Option<u64>,
    calls: u64,
    count: CallCount,
}

impl Cut {
    ghost use Rattle.std.specs.Prelude.{◌≡◌, Some, IfOk, length, min};
    ghost use Rattle.ybase_output.specs.Cut as cut;

    /// A sink of so much room that takes so many bytes a call. Calls count from 1; the failing one answers an error.
    pub fn new(
        alloc: Global,
        room: usize,
        bytes_per_call: usize,
        failing_call: Option<u64>,
    ) -> Result<Cut, AllocError>
        ensures empty { IfOk result (λ c. ⟦<Cut as Sink>⟧.taken c ≡ Some []) }
        ensures without_failure { IfOk result (λ c. ⟦<Cut as Sink>⟧.failures c ≡ 0) }
        ensures room { IfOk result (λ c. cut.room c ≡ room) }
        ensures bytes_per_call { IfOk result (λ c. cut.bytes_per_call c ≡ bytes_per_call) }
        ensures failing_call { IfOk result (λ c. cut.failing_call c ≡ failing_call) }
        ensures without_call { IfOk result (λ c. cut.calls c ≡ 0) }
    {
        let buffer = Vec::with_capacity(alloc, room)?;
        Ok(Cut {
            buffer,
            room,
            bytes_per_call,
            failing_call,
            calls: 0,
            count: CallCount::new(),
        })
    }

    /// The bytes that it has taken.
    pub fn bytes(&self) -> &[u8]
        ensures { ⟦<Cut as Sink>⟧.taken self.now ≡ Some result.now }
    {
        self.buffer.as_slice()
    }

    /// How many calls it got.
    pub fn calls(&self) -> u64
        ensures { result ≡ cut.calls self.now }
    {
        self.calls
    }

    /// How much of a part is taken at once.
    fn share(&self, part: &[u8]) -> usize
        ensures { result ≡ cut.share self.now part.now }
    {
        part.len().min(self.bytes_per_call.min(self.room))
    }
}

impl Sink for Cut {
    ghost use Rattle.std.specs.Prelude.{◌≡◌, ◌+◌, ◌≤◌, ◌-◌, Some, IfOk, OnErr, IsErr, length, take};
    ghost use Rattle.ybase_output.specs.Sink.{followed_by, failed_calls};
    ghost use Rattle.ybase_output.specs.Cut as cut;

    ghost taken = { λ c. Some c.buffer.items };

    ghost failures = { λ c. c.count.calls };

    fn write(&mut self, part: &[u8]) -> Result<usize, SinkFault>
        ensures length { IfOk result (λ n. n ≤ length part.now) }
        ensures ok { IfOk result (λ n. ⟦<Cut as Sink>⟧.taken self.new
            ≡ followed_by (⟦<Cut as Sink>⟧.taken self.old) (take n part.now)) }
        ensures err { OnErr result (⟦<Cut as Sink>⟧.taken self.new
            ≡ ⟦<Cut as Sink>⟧.taken self.old) }
        ensures counted { ⟦<Cut as Sink>⟧.failures self.new ≡ ⟦<Cut as Sink>⟧.failures self.old
            + failed_calls result part.now }
        ensures failing { cut.failing_call self.old ≡ Some (cut.next_call self.old) → IsErr result }
        ensures share { IfOk result (λ n. n ≡ cut.share self.old part.now) }
        ensures calls { cut.calls self.new ≡ cut.next_call self.old }
        ensures room { IfOk result (λ n. cut.room self.new ≡ cut.room self.old - n) }
        ensures kept { cut.KeepsWay self.old self.new }
    {
        self.calls = self.calls.saturating_add(1);
        let n = self.share(part);
        if self.failing_call == Some(self.calls)
            || self.buffer.extend_from_slice(&part[..n]).is_err()
        {
            self.count.rise();
            return Err(SinkFault);
        }
        self.room -= n;
        if n == 0 && !part.is_empty() {
            self.count.rise();
        }
        Ok(n)
    }
}
