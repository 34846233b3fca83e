ghost use Rattle.std.specs.Prelude.{◌≡◌, ◌+◌, ◌-◌, ◌^◌, ◌≤◌, [], min, take, length, IfOk, MatchResult, OnOk, OnErr};
ghost use Rattle.std.specs.Io.{WritesAtMost};
ghost use Rattle.std.specs.Io.KnownBytes.{Appends, Keeps};
ghost use Rattle.mpm_host.specs.Sent.{Sends, SendsPart};

use mpm_devices::Passage;
use mpm_port::{Failed, Sink};
use std::io::{self, ErrorKind, Write};
use std::marker::Model;
use std::thread;
use std::time::Duration;

/// A writer of the host, as the standard output, which is written without a buffer: a fault is seen in the put that meets
/// it. Contracts see all bytes that it took. A write that a signal interrupts is made again, and so is one for which the writer
/// has no room, as a full pipe that doesn't block, until it has some.
#[derive(Drop)]
pub struct RealSink<W> {
    output: W,
    passage: Passage,
    faults: u64,
    host: HostRuntime,
}

impl<W> Model for RealSink<W> {
    ghost use Rattle.mpm_host.specs.Sent.{Sent};

    ghost Value = { Sent W };

    ghost view = { λ s. record { output = s.output; text = s.passage; faults = s.faults } };
}

impl<W> RealSink<W> {
    /// No call has failed. What passed before stands before what is written.
    pub fn new(output: W, passage: Passage, host: HostRuntime) -> RealSink<W>
        ensures { result ≡ record { output = output; text = passage; faults = 0 } }
    {
        RealSink {
            output,
            passage,
            faults: 0,
            host,
        }
    }
}

impl<W: Write> RealSink<W> {
    /// Writes some first part of the bytes.
    #[tactic(auto, using(crate::proofs::Known::some_sent, crate::proofs::Known::none_sent))]
    fn write_some(&mut self, bytes: &[u8]) -> Result<usize, Failed>
        ensures most { IfOk result (λ count. count ≤ length bytes.now) }
        ensures ok { IfOk result (λ count. Sends W.contents (take count bytes.now) self.old self.new) }
        ensures err { OnErr result (Sends W.contents [] self.old self.new) }
        ensures faults { self.new.faults ≡ self.old.faults }
    {
        let count = taken_by(&mut self.output, bytes, &self.host)?;
        self.passage.pass_all(&bytes[..count]);
        Ok(count)
    }

    /// Writes all the bytes. A failed call has written some first part of them.
    #[tactic(auto, using(crate::proofs::Known::nothing_put, crate::proofs::Known::more_put, crate::proofs::Known::all_put, crate::proofs::Known::part_put, crate::proofs::Known::part_then))]
    fn write_whole(&mut self, bytes: &[u8]) -> Result<(), Failed>
        ensures ok { OnOk result (Sends W.contents bytes.now self.old self.new) }
        ensures err { OnErr result (SendsPart W.contents bytes.now self.old self.new) }
        ensures faults { self.new.faults ≡ self.old.faults }
    {
        let mut rest = bytes;
        for _ in 0..u64::MAX {
            if rest.is_empty() {
                return Ok(());
            }
            let count = self.write_some(rest)?;
            rest = &rest[count..];
        }
        Err(Failed)
    }
}

impl<W: Write> Sink for RealSink<W> {
    ghost written = { λ s. s.text };

    ghost faults = { λ s. s.faults };

    ghost took = { λ old bytes new. Sends W.contents bytes old new × (new.faults ≡ old.faults) };

    ghost dropped = { λ old bytes new. SendsPart W.contents bytes old new × (new.faults ≡ min (old.faults + 1) (2 ^ 64 - 1)) };

    #[tactic(auto, using(mpm_port::proofs::Faults::rose, crate::proofs::Known::part_appended))]
    fn put(&mut self, bytes: &[u8]) -> Result<(), Failed> {
        let written = self.write_whole(bytes);
        if written.is_err() {
            self.faults = self.faults.saturating_add(1);
        }
        written
    }
}

/// How many of the bytes a write takes. One that takes nothing of them is a failure.
#[tactic(auto, using(crate::proofs::Known::appends_later))]
fn taken_by<W: Write>(to: &mut W, bytes: &[u8], host: &HostRuntime) -> Result<usize, Failed>
    ensures most { WritesAtMost result bytes.now }
    ensures bytes { MatchResult result (λ count. Appends (W.contents to.old) (W.contents to.new) (take count bytes.now))
        (λ _. Keeps (W.contents to.old) (W.contents to.new)) }
{
    for _ in 0..u64::MAX {
        match to.write(bytes) {
            Ok(0) => return Err(Failed),
            Ok(count) => return Ok(count),
            Err(error) => wait_after(&error, host)?,
        }
    }
    Err(Failed)
}

/// Waits until a write that ended with an error may be made again: not at all where a signal interrupted it, and a millisecond
/// where there was no room. Any other error is a failure.
fn wait_after(error: &io::Error, host: &HostRuntime) -> Result<(), Failed> {
    match error.kind() {
        ErrorKind::Interrupted => Ok(()),
        ErrorKind::WouldBlock => {
            thread::sleep(host, Duration::from_millis(1));
            Ok(())
        }
        _ => Err(Failed),
    }
}
