//! The standard streams of the process, as a source and a sink.
ghost use Rattle.std.specs.Prelude.{◌≡◌, ℕ, ◌<◌, ◌≤◌, List, [], length, take, Option, None, IfOk, OnOk, OnErr, is_err, IfSome, if◌then◌else◌};
ghost use Rattle.tw_io.specs.Devices.{Takes, IsAtEnd, Appends, Rose, next_count};

use crate::device::{Failed, Sink, Source};
use std::io::{Read, Stdin, Stdout, Write};
use std::marker::Model;

/// Standard input. Contracts see its error counter, and nothing of the bytes.
#[derive(Drop)]
pub struct HostSource {
    stdin: Stdin,
    faults: u64,
}

impl Model for HostSource {
    ghost Value = { ℕ };

    ghost view = { λ source. source.faults };
}

impl HostSource {
    /// The source over standard input, with its error counter at 0.
    pub fn new(stdin: Stdin) -> HostSource
        ensures { result ≡ 0 }
    {
        HostSource { stdin, faults: 0 }
    }
}

impl Source for HostSource {
    ghost left = { λ _. None };

    ghost faults = { λ count. count };

    /// One read of standard input into `buf`.
    ///
    /// - `Failed`: the read had an I/O error.
    fn read(&mut self, buf: &mut [u8]) -> Result<usize, Failed>
        requires { 0 < length buf.old }
        ensures within { IfOk result (λ n. n ≤ length buf.new) }
        ensures bytes { IfOk result (λ n. Takes None None (take n buf.new)) }
        ensures end { IfOk result (λ n. n ≡ 0 → IsAtEnd None) }
        ensures nothing { OnErr result (Takes None None []) }
        ensures cause { OnErr result (Rose self.old self.new) }
        ensures steady { OnOk result (self.new ≡ self.old) }
        ensures count { self.new ≡ (if is_err result then next_count self.old else self.old) }
    {
        match self.stdin.read(buf) {
            Ok(count) => Ok(count),
            Err(_) => {
                self.faults = self.faults.saturating_add(1);
                Err(Failed)
            }
        }
    }
}

/// Standard output. Contracts see its error counter, and nothing of the bytes.
#[derive(Drop)]
pub struct HostSink {
    stdout: Stdout,
    faults: u64,
}

impl Model for HostSink {
    ghost Value = { ℕ };

    ghost view = { λ sink. sink.faults };
}

impl HostSink {
    /// The sink over standard output, with its error counter at 0.
    pub fn new(stdout: Stdout) -> HostSink
        ensures { result ≡ 0 }
    {
        HostSink { stdout, faults: 0 }
    }
}

impl Sink for HostSink {
    ghost taken = { λ _. None };

    ghost faults = { λ count. count };

    /// One write to standard output, flushed.
    ///
    /// - `Failed`: the write or the flush had an I/O error, or the write took nothing.
    fn write(&mut self, piece: &[u8]) -> Result<usize, Failed>
        requires { 0 < length piece.now }
        ensures some { IfOk result (λ n. 0 < n) }
        ensures within { IfOk result (λ n. n ≤ length piece.now) }
        ensures bytes { IfOk result (λ n. Appends None None (take n piece.now)) }
        ensures nothing { OnErr result (Appends None None []) }
        ensures cause { OnErr result (Rose self.old self.new) }
        ensures steady { OnOk result (self.new ≡ self.old) }
        ensures count { self.new ≡ (if is_err result then next_count self.old else self.old) }
    {
        match write_and_flush(self.stdout, piece) {
            Some(count) => Ok(count),
            None => {
                self.faults = self.faults.saturating_add(1);
                Err(Failed)
            }
        }
    }
}

// Writes `piece` to standard output and flushes it. Returns the number of bytes written; `None` if
// that is 0 or a call had an I/O error.
fn write_and_flush(mut stdout: Stdout, piece: &[u8]) -> Option<usize>
    ensures some { IfSome result (λ n. 0 < n) }
    ensures within { IfSome result (λ n. n ≤ length piece.now) }
{
    let count = stdout.write(piece).ok()?;
    stdout.flush().ok()?;
    (count > 0).then_some(count)
}
