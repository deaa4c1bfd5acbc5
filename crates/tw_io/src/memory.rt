//! Sources and sinks over bytes in memory, for tests. The calls that fail are chosen by number.
ghost use Rattle.std.specs.Prelude.{◌≡◌, ℕ, ◌+◌, ◌-◌, ◌<◌, ◌≤◌, ◌||◌, List, [], ◌++◌, length, take, drop, min, nat_le, Some, IfOk, IsOk, OnOk, OnErr, is_err, if◌then◌else◌, vec_len, vec_capacity};
ghost use Rattle.tw_io.specs.Devices.{Takes, IsAtEnd, Appends, Rose, next_count};
ghost use Rattle.tw_io.specs.Memory.{SourceView, SinkView, is_listed};

use crate::device::{Failed, Sink, Source};
use std::alloc::{AllocError, Global};
use std::marker::Model;

/// A source that gives its bytes and never fails.
#[derive(Drop)]
pub struct PlainSource {
    bytes: Vec<u8>,
    at: usize,
}

impl Model for PlainSource {
    ghost Value = { List ℕ };

    ghost view = { λ s. drop s.at s.bytes.items };

    ghost invariant = { λ s. s.at ≤ vec_len s.bytes };
}

impl PlainSource {
    /// The source that gives `bytes`. Contracts see the bytes that are left.
    pub fn new(bytes: Vec<u8>) -> PlainSource
        ensures { result ≡ bytes.items }
    {
        PlainSource { bytes, at: 0 }
    }
}

impl Source for PlainSource {
    ghost left = { λ bytes. Some bytes };

    ghost faults = { λ _. 0 };

    /// Gives as many bytes as are left and fit into `buf`. Never fails.
    fn read(&mut self, buf: &mut [u8]) -> Result<usize, Failed>
        requires { 0 < length buf.old }
        ensures within { IfOk result (λ n. n ≤ length buf.new) }
        ensures bytes { IfOk result (λ n. Takes (Some self.old) (Some self.new) (take n buf.new)) }
        ensures end { IfOk result (λ n. n ≡ 0 → IsAtEnd (Some self.new)) }
        ensures succeeds { IsOk result }
        ensures count { IfOk result (λ n. n ≡ min (length self.old) (length buf.old)) }
    {
        let count = copy_prefix(&self.bytes[self.at..], buf, usize::MAX);
        self.at += count;
        Ok(count)
    }
}

/// A source that gives at most `chunk` bytes per read, and fails at chosen reads.
#[derive(Drop)]
pub struct MemSource {
    bytes: Vec<u8>,
    at: usize,
    chunk: usize,
    failing: Vec<u64>,
    calls: u64,
    faults: u64,
}

impl Model for MemSource {
    ghost Value = { SourceView };

    ghost view = { λ s. record {
      left = drop s.at s.bytes.items;
      chunk = s.chunk;
      failing = s.failing.items;
      calls = s.calls;
      faults = s.faults;
    } };

    ghost invariant = { λ s. (s.at ≤ vec_len s.bytes) × (1 ≤ s.chunk) };
}

impl MemSource {
    /// The source that gives `bytes`, at most `chunk` of them per read. Reads are numbered from 1.
    /// A read fails exactly if its number is in `failing`. The number saturates at the greatest
    /// `u64`.
    pub fn new(bytes: Vec<u8>, chunk: usize, failing: Vec<u64>) -> MemSource
        requires { 1 ≤ chunk }
        ensures { result ≡ record {
          left = bytes.items;
          chunk = chunk;
          failing = failing.items;
          calls = 0;
          faults = 0;
        } }
    {
        MemSource {
            bytes,
            at: 0,
            chunk,
            failing,
            calls: 0,
            faults: 0,
        }
    }
}

impl Source for MemSource {
    ghost left = { λ s. Some s.left };

    ghost faults = { λ s. s.faults };

    /// Gives as many bytes as are left, fit into `buf` and fit into one chunk.
    ///
    /// - `Failed`: the number of the read is in `failing`. Nothing was given.
    fn read(&mut self, buf: &mut [u8]) -> Result<usize, Failed>
        requires { 0 < length buf.old }
        ensures within { IfOk result (λ n. n ≤ length buf.new) }
        ensures bytes { IfOk result
            (λ n. Takes (Some self.old.left) (Some self.new.left) (take n buf.new)) }
        ensures end { IfOk result (λ n. n ≡ 0 → IsAtEnd (Some self.new.left)) }
        ensures nothing { OnErr result (Takes (Some self.old.left) (Some self.new.left) []) }
        ensures cause { OnErr result (Rose self.old.faults self.new.faults) }
        ensures steady { OnOk result (self.new.faults ≡ self.old.faults) }
        ensures fails { is_err result ≡ is_listed self.old.failing (next_count self.old.calls) }
        ensures count { IfOk result
            (λ n. n ≡ min (length self.old.left) (min (length buf.old) self.old.chunk)) }
        ensures state { self.new ≡ record self.old {
          left = self.new.left;
          calls = next_count self.old.calls;
          faults = (if is_err result then next_count self.old.faults else self.old.faults);
        } }
    {
        self.calls = self.calls.saturating_add(1);
        if self.failing.contains(&self.calls) {
            self.faults = self.faults.saturating_add(1);
            return Err(Failed);
        }
        let count = copy_prefix(&self.bytes[self.at..], buf, self.chunk);
        self.at += count;
        Ok(count)
    }
}

/// A sink that keeps what it takes, up to a capacity fixed at its creation, and fails at chosen
/// writes.
#[derive(Drop)]
pub struct MemSink {
    bytes: Vec<u8>,
    room: usize,
    failing: Vec<u64>,
    calls: u64,
    faults: u64,
}

impl Model for MemSink {
    ghost Value = { SinkView };

    ghost view = { λ s. record {
      taken = s.bytes.items;
      room = s.room;
      failing = s.failing.items;
      calls = s.calls;
      faults = s.faults;
    } };

    ghost invariant = { λ s. s.room ≤ vec_capacity s.bytes };
}

impl MemSink {
    /// The sink that takes `room` bytes in all. No later call allocates. Writes are numbered from 1.
    /// A write fails exactly if its number is in `failing` or `room` bytes were taken. The number
    /// saturates at the greatest `u64`.
    ///
    /// - `AllocError`: out of memory for `room` bytes.
    pub fn new(alloc: Global, room: usize, failing: Vec<u64>) -> Result<MemSink, AllocError>
        ensures { IfOk result (λ sink. sink ≡ record {
          taken = [];
          room = room;
          failing = failing.items;
          calls = 0;
          faults = 0;
        }) }
    {
        Ok(MemSink {
            bytes: Vec::with_capacity(alloc, room)?,
            room,
            failing,
            calls: 0,
            faults: 0,
        })
    }

    /// All the bytes that the sink took, in order.
    pub fn taken(&self) -> &[u8]
        ensures { result.now ≡ self.now.taken }
    {
        self.bytes.as_slice()
    }
}

impl Sink for MemSink {
    ghost taken = { λ s. Some s.taken };

    ghost faults = { λ s. s.faults };

    /// Takes the whole piece, or the prefix that there is room for.
    ///
    /// - `Failed`: the number of the write is in `failing`, or `room` bytes were taken before.
    fn write(&mut self, piece: &[u8]) -> Result<usize, Failed>
        requires { 0 < length piece.now }
        ensures some { IfOk result (λ n. 0 < n) }
        ensures within { IfOk result (λ n. n ≤ length piece.now) }
        ensures bytes { IfOk result
            (λ n. Appends (Some self.old.taken) (Some self.new.taken) (take n piece.now)) }
        ensures nothing { OnErr result (Appends (Some self.old.taken) (Some self.new.taken) []) }
        ensures cause { OnErr result (Rose self.old.faults self.new.faults) }
        ensures steady { OnOk result (self.new.faults ≡ self.old.faults) }
        ensures fails { is_err result
            ≡ (is_listed self.old.failing (next_count self.old.calls)
            || nat_le self.old.room (length self.old.taken)) }
        ensures count { IfOk result
            (λ n. n ≡ min (length piece.now) (self.old.room - length self.old.taken)) }
        ensures state { self.new ≡ record self.old {
          taken = self.new.taken;
          calls = next_count self.old.calls;
          faults = (if is_err result then next_count self.old.faults else self.old.faults);
        } }
    {
        self.calls = self.calls.saturating_add(1);
        if self.failing.contains(&self.calls) || self.room <= self.bytes.len() {
            self.faults = self.faults.saturating_add(1);
            return Err(Failed);
        }
        let count = piece.len().min(self.room - self.bytes.len());
        match self.bytes.extend_from_slice(&piece[..count]) {
            Ok(()) => Ok(count),
            Err(AllocError) => unreachable!(),
        }
    }
}

// Copies a prefix of `from`, of at most `most` bytes and the length of `buf`, into `buf`. Returns
// its length.
fn copy_prefix(from: &[u8], buf: &mut [u8], most: usize) -> usize
    ensures count { result ≡ min (length from.now) (min (length buf.old) most) }
    ensures copied { take result buf.new ≡ take result from.now }
{
    let count = from.len().min(buf.len()).min(most);
    buf[..count].copy_from_slice(&from[..count]);
    count
}
