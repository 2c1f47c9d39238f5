// A host in memory.
#![tactic(auto, using(crate::proofs::Kept::settled_calls))]

ghost use Rattle.std.specs.Prelude.{◌≡◌, ◌≤◌, ◌<◌, ◌-◌, ◌^◌, ◌++◌, ◌↔◌, List, ℕ, length, take, drop, min, [], ◌∷◌, false, IfOk, OnOk, OnErr, IsErr, IsTrue};
ghost use Rattle.cad_host.specs.Disk.{Event, state, reads, IsDisk, IsClean, output, filled, FailsTake, FailsLook, Takes, Puts, Looks, Writes, Syncs};
ghost use Rattle.cad_host.specs.Crash.{at_moment, IsFilledImage, IsSettled};
ghost use Rattle.cad_host.specs.Faults.{IsCaused};
ghost use Rattle.cad_host.specs.Input.{Taking};
ghost use Rattle.cad_host.specs.Record.{trace_of};
ghost use Rattle.cad_host.specs.Code.Tapes.{bytes_on};
ghost use Rattle.cad_host.specs.declared.host.Tape.{Tape};

use crate::call::Call;
use crate::faults::fault;
use crate::replay::image_of;
use crate::schedule::Schedule;
use crate::tapes::{Tapes, read_at};
use crate::{Failed, Host, Tape, record};
use std::alloc::{AllocError, Global};

/// A host in memory, of which some calls fail: those of three lists of numbers. A put that is to fail appends the first half
/// of its bytes, and a write that is to fail puts the first half of its own; a take, a look at a tape or a sync that is to fail
/// changes nothing. A call that finds no memory fails too, and changes nothing but its count.
#[derive(Drop)]
pub struct MemHost {
    alloc: Global,
    input: Vec<u8>,
    place: usize,
    written: Vec<u8>,
    tapes: Tapes,
    calls: Vec<Call>,
    takes: Schedule,
    puts: Schedule,
    disks: Schedule,
    input_faults: u64,
    output_faults: u64,
    disk_faults: u64,
    ghost within: { place ≤ length input.items },
    ghost written_so: { written.items ≡ output (trace_of calls.items) },
    ghost settled_so: { IsSettled (trace_of calls.items) },
    ghost reads_so: { (t : Tape) → bytes_on tapes t ≡ reads (trace_of calls.items) t },
}

impl MemHost {
    ghost use Rattle.cad_host.specs.Memory.{IsPlanned, IsSure, HasNoFaults, CountsNone};

    /// A host with this input and empty tapes. The takes, puts and disk calls of these numbers fail, each counted from 0.
    pub fn new(
        alloc: Global,
        input: &[u8],
        takes: &[u64],
        puts: &[u64],
        disks: &[u64],
    ) -> Result<Self, AllocError>
        ensures trace { IfOk result (λ h. ⟦<MemHost as Host>⟧.trace h ≡ []) }
        ensures left { IfOk result (λ h. ⟦<MemHost as Host>⟧.left h ≡ input.now) }
        ensures input_faults { IfOk result (λ h. ⟦<MemHost as Host>⟧.input_faults h ≡ 0) }
        ensures output_faults { IfOk result (λ h. ⟦<MemHost as Host>⟧.output_faults h ≡ 0) }
        ensures disk_faults { IfOk result (λ h. ⟦<MemHost as Host>⟧.disk_faults h ≡ 0) }
        ensures planned { IfOk result (λ h. IsPlanned h takes.now puts.now disks.now) }
    {
        Ok(MemHost {
            alloc,
            input: input.to_vec(alloc)?,
            place: 0,
            written: Vec::new(alloc),
            tapes: Tapes::new(alloc),
            calls: Vec::new(alloc),
            takes: Schedule::new(alloc, takes)?,
            puts: Schedule::new(alloc, puts)?,
            disks: Schedule::new(alloc, disks)?,
            input_faults: 0,
            output_faults: 0,
            disk_faults: 0,
        })
    }

    /// The output so far.
    pub fn output(&self) -> &[u8]
        ensures { result.now ≡ output (⟦<MemHost as Host>⟧.trace self.now) }
    {
        &self.written
    }

    /// What a tape reads.
    pub fn tape(&self, tape: Tape) -> &[u8]
        ensures { result.now ≡ reads (⟦<MemHost as Host>⟧.trace self.now) tape }
    {
        self.tapes.bytes(tape)
    }

    /// Sets what a tape reads, with nothing pending. Where no memory is found, the host is as it was.
    pub fn fill(&mut self, tape: Tape, bytes: &[u8]) -> Result<(), AllocError>
        ensures ok { OnOk result (⟦<MemHost as Host>⟧.trace self.new ≡ filled tape bytes.now ∷ ⟦<MemHost as Host>⟧.trace self.old) }
        ensures err { OnErr result (⟦<MemHost as Host>⟧.trace self.new ≡ ⟦<MemHost as Host>⟧.trace self.old) }
        ensures left { ⟦<MemHost as Host>⟧.left self.new ≡ ⟦<MemHost as Host>⟧.left self.old }
        ensures input_faults { ⟦<MemHost as Host>⟧.input_faults self.new ≡ ⟦<MemHost as Host>⟧.input_faults self.old }
        ensures output_faults { ⟦<MemHost as Host>⟧.output_faults self.new ≡ ⟦<MemHost as Host>⟧.output_faults self.old }
        ensures disk_faults { ⟦<MemHost as Host>⟧.disk_faults self.new ≡ ⟦<MemHost as Host>⟧.disk_faults self.old }
        ensures counted { CountsNone self.old self.new }
    {
        record::fill(self.alloc, &mut self.calls, &mut self.tapes, tape, bytes)
    }

    /// The moment: how many events came so far. A look at the tapes is none, unless it fails.
    #[tactic(auto, using(crate::proofs::Replayed::length_trace))]
    pub fn now(&self) -> u64
        ensures { result ≡ length (⟦<MemHost as Host>⟧.trace self.now) }
    {
        self.calls.len() as u64
    }

    /// A host without failing calls whose tapes are an image of an earlier moment, with nothing pending: as long as what
    /// reads there, and each byte that may be anything is `fill`. It has no input and no output.
    pub fn crash(&self, moment: u64, fill: u8) -> Result<MemHost, AllocError>
        requires { moment ≤ length (⟦<MemHost as Host>⟧.trace self.now) }
        ensures image { IfOk result (λ h. IsDisk (at_moment (⟦<MemHost as Host>⟧.trace self.now) moment) (reads (⟦<MemHost as Host>⟧.trace h))) }
        ensures exact { IfOk result (λ h. (t : Tape) → IsFilledImage fill (state t (at_moment (⟦<MemHost as Host>⟧.trace self.now) moment)) (reads (⟦<MemHost as Host>⟧.trace h) t)) }
        ensures clean { IfOk result (λ h. (t : Tape) → IsClean (state t (⟦<MemHost as Host>⟧.trace h))) }
        ensures output { IfOk result (λ h. output (⟦<MemHost as Host>⟧.trace h) ≡ []) }
        ensures left { IfOk result (λ h. ⟦<MemHost as Host>⟧.left h ≡ []) }
        ensures faults { IfOk result HasNoFaults }
        ensures sure { IfOk result IsSure }
    {
        let past = &self.calls[..moment as usize];
        let a = image_of(self.alloc, past, Tape::A, fill)?;
        let b = image_of(self.alloc, past, Tape::B, fill)?;
        let pick = image_of(self.alloc, past, Tape::Pick, fill)?;
        MemHost::over(self.alloc, &a, &b, &pick)
    }

    /// A host without failing calls over these tapes, with nothing pending.
    fn over(alloc: Global, a: &[u8], b: &[u8], pick: &[u8]) -> Result<MemHost, AllocError>
        ensures trace { IfOk result (λ h. ⟦<MemHost as Host>⟧.trace h ≡ filled Tape.Pick pick.now ∷ filled Tape.B b.now ∷ filled Tape.A a.now ∷ []) }
        ensures left { IfOk result (λ h. ⟦<MemHost as Host>⟧.left h ≡ []) }
        ensures faults { IfOk result HasNoFaults }
        ensures sure { IfOk result IsSure }
    {
        let mut host = MemHost::new(alloc, &[], &[], &[], &[])?;
        host.fill(Tape::A, a)?;
        host.fill(Tape::B, b)?;
        host.fill(Tape::Pick, pick)?;
        Ok(host)
    }
}

impl Host for MemHost {
    ghost use Rattle.cad_host.specs.Memory.{take_fails, put_fails, disk_fails, CountsTake, CountsPut, CountsDisk, PutsHalf, WritesHalf, SyncsNothing};

    ghost tells = { Unit {0} };

    ghost trace = { λ h. trace_of h.calls.items };

    ghost left = { λ h. drop h.place h.input.items };

    ghost input_faults = { λ h. h.input_faults };

    ghost output_faults = { λ h. h.output_faults };

    ghost disk_faults = { λ h. h.disk_faults };

    fn take(&mut self, into: &mut [u8]) -> Result<usize, Failed>
        ensures fails { IsTrue (take_fails self.old) → IsErr result }
        ensures nothing { take_fails self.old ≡ false → OnErr result (⟦<MemHost as Host>⟧.trace self.new ≡ ⟦<MemHost as Host>⟧.trace self.old) }
        ensures counted { CountsTake self.old self.new }
        ensures count { IfOk result (λ n. n ≤ length into.old) }
        ensures bytes { Taking result (⟦<MemHost as Host>⟧.left self.old) (⟦<MemHost as Host>⟧.left self.new) into.old into.new }
        ensures story { Takes result into.new (⟦<MemHost as Host>⟧.trace self.old) (⟦<MemHost as Host>⟧.trace self.new) }
        ensures cause { IsCaused result (⟦<MemHost as Host>⟧.input_faults self.old) (⟦<MemHost as Host>⟧.input_faults self.new) }
        ensures output { ⟦<MemHost as Host>⟧.output_faults self.new ≡ ⟦<MemHost as Host>⟧.output_faults self.old }
        ensures disk { ⟦<MemHost as Host>⟧.disk_faults self.new ≡ ⟦<MemHost as Host>⟧.disk_faults self.old }
    {
        if self.takes.count() {
            record::fail_take(&mut self.calls);
            return Err(fault(&mut self.input_faults));
        }
        let count = read_at(&self.input, self.place, into);
        if record::took(self.alloc, &mut self.calls, &into[..count]).is_err() {
            return Err(fault(&mut self.input_faults));
        }
        self.place += count;
        Ok(count)
    }

    fn put(&mut self, bytes: &[u8]) -> Result<(), Failed>
        ensures fails { IsTrue (put_fails self.old) → IsErr result }
        ensures half { IsTrue (put_fails self.old) → PutsHalf bytes.now (⟦<MemHost as Host>⟧.trace self.old) (⟦<MemHost as Host>⟧.trace self.new) }
        ensures nothing { put_fails self.old ≡ false → OnErr result (⟦<MemHost as Host>⟧.trace self.new ≡ ⟦<MemHost as Host>⟧.trace self.old) }
        ensures counted { CountsPut self.old self.new }
        ensures story { Puts bytes.now result (⟦<MemHost as Host>⟧.trace self.old) (⟦<MemHost as Host>⟧.trace self.new) }
        ensures stays { ⟦<MemHost as Host>⟧.left self.new ≡ ⟦<MemHost as Host>⟧.left self.old }
        ensures cause { IsCaused result (⟦<MemHost as Host>⟧.output_faults self.old) (⟦<MemHost as Host>⟧.output_faults self.new) }
        ensures input { ⟦<MemHost as Host>⟧.input_faults self.new ≡ ⟦<MemHost as Host>⟧.input_faults self.old }
        ensures disk { ⟦<MemHost as Host>⟧.disk_faults self.new ≡ ⟦<MemHost as Host>⟧.disk_faults self.old }
    {
        let fails = self.puts.count();
        let kept = if fails {
            &bytes[..bytes.len() / 2]
        } else {
            bytes
        };
        let recorded = record::put(self.alloc, &mut self.calls, &mut self.written, kept, fails);
        if fails || recorded.is_err() {
            return Err(fault(&mut self.output_faults));
        }
        Ok(())
    }

    fn length(&mut self, tape: Tape) -> Result<u64, Failed>
        ensures fails { IsErr result ↔ IsTrue (disk_fails self.old) }
        ensures counted { CountsDisk self.old self.new }
        ensures is { IfOk result (λ n. n ≡ length (reads (⟦<MemHost as Host>⟧.trace self.old) tape)) }
        ensures story { Looks tape result (⟦<MemHost as Host>⟧.trace self.old) (⟦<MemHost as Host>⟧.trace self.new) }
        ensures stays { ⟦<MemHost as Host>⟧.left self.new ≡ ⟦<MemHost as Host>⟧.left self.old }
        ensures cause { IsCaused result (⟦<MemHost as Host>⟧.disk_faults self.old) (⟦<MemHost as Host>⟧.disk_faults self.new) }
        ensures input { ⟦<MemHost as Host>⟧.input_faults self.new ≡ ⟦<MemHost as Host>⟧.input_faults self.old }
        ensures output { ⟦<MemHost as Host>⟧.output_faults self.new ≡ ⟦<MemHost as Host>⟧.output_faults self.old }
    {
        if self.disks.count() {
            record::fail_look(&mut self.calls, tape);
            return Err(fault(&mut self.disk_faults));
        }
        Ok(self.tapes.bytes(tape).len() as u64)
    }

    fn read(&mut self, tape: Tape, at: u64, into: &mut [u8]) -> Result<usize, Failed>
        ensures fails { IsErr result ↔ IsTrue (disk_fails self.old) }
        ensures counted { CountsDisk self.old self.new }
        ensures count { IfOk result (λ n. n ≤ length into.old) }
        ensures is { IfOk result (λ n. n ≡ min (length into.old) (length (reads (⟦<MemHost as Host>⟧.trace self.old) tape) - at)) }
        ensures bytes { IfOk result (λ n. into.new ≡ take n (drop at (reads (⟦<MemHost as Host>⟧.trace self.old) tape)) ++ drop n into.old) }
        ensures story { Looks tape result (⟦<MemHost as Host>⟧.trace self.old) (⟦<MemHost as Host>⟧.trace self.new) }
        ensures stays { ⟦<MemHost as Host>⟧.left self.new ≡ ⟦<MemHost as Host>⟧.left self.old }
        ensures cause { IsCaused result (⟦<MemHost as Host>⟧.disk_faults self.old) (⟦<MemHost as Host>⟧.disk_faults self.new) }
        ensures input { ⟦<MemHost as Host>⟧.input_faults self.new ≡ ⟦<MemHost as Host>⟧.input_faults self.old }
        ensures output { ⟦<MemHost as Host>⟧.output_faults self.new ≡ ⟦<MemHost as Host>⟧.output_faults self.old }
    {
        if self.disks.count() {
            record::fail_look(&mut self.calls, tape);
            return Err(fault(&mut self.disk_faults));
        }
        Ok(read_at(self.tapes.bytes(tape), at as usize, into))
    }

    fn write(&mut self, tape: Tape, at: u64, bytes: &[u8]) -> Result<(), Failed>
        requires { at ≤ length (reads (⟦<MemHost as Host>⟧.trace self.old) tape) }
        ensures fails { IsTrue (disk_fails self.old) → IsErr result }
        ensures half { IsTrue (disk_fails self.old) → WritesHalf tape at bytes.now (⟦<MemHost as Host>⟧.trace self.old) (⟦<MemHost as Host>⟧.trace self.new) }
        ensures nothing { disk_fails self.old ≡ false → OnErr result (⟦<MemHost as Host>⟧.trace self.new ≡ ⟦<MemHost as Host>⟧.trace self.old) }
        ensures counted { CountsDisk self.old self.new }
        ensures story { Writes tape at bytes.now result (⟦<MemHost as Host>⟧.trace self.old) (⟦<MemHost as Host>⟧.trace self.new) }
        ensures fits { OnOk result (length (reads (⟦<MemHost as Host>⟧.trace self.new) tape) < 2 ^ 64) }
        ensures stays { ⟦<MemHost as Host>⟧.left self.new ≡ ⟦<MemHost as Host>⟧.left self.old }
        ensures cause { IsCaused result (⟦<MemHost as Host>⟧.disk_faults self.old) (⟦<MemHost as Host>⟧.disk_faults self.new) }
        ensures input { ⟦<MemHost as Host>⟧.input_faults self.new ≡ ⟦<MemHost as Host>⟧.input_faults self.old }
        ensures output { ⟦<MemHost as Host>⟧.output_faults self.new ≡ ⟦<MemHost as Host>⟧.output_faults self.old }
    {
        if self.disks.count() {
            let calls = &mut self.calls;
            record::break_write(self.alloc, calls, &mut self.tapes, tape, at, bytes);
            return Err(fault(&mut self.disk_faults));
        }
        let calls = &mut self.calls;
        if record::write(self.alloc, calls, &mut self.tapes, tape, at, bytes).is_err() {
            return Err(fault(&mut self.disk_faults));
        }
        Ok(())
    }

    fn sync(&mut self, tape: Tape) -> Result<(), Failed>
        ensures fails { IsTrue (disk_fails self.old) → IsErr result }
        ensures same { IsTrue (disk_fails self.old) → SyncsNothing tape (⟦<MemHost as Host>⟧.trace self.old) (⟦<MemHost as Host>⟧.trace self.new) }
        ensures nothing { disk_fails self.old ≡ false → OnErr result (⟦<MemHost as Host>⟧.trace self.new ≡ ⟦<MemHost as Host>⟧.trace self.old) }
        ensures counted { CountsDisk self.old self.new }
        ensures story { Syncs tape result (⟦<MemHost as Host>⟧.trace self.old) (⟦<MemHost as Host>⟧.trace self.new) }
        ensures stays { ⟦<MemHost as Host>⟧.left self.new ≡ ⟦<MemHost as Host>⟧.left self.old }
        ensures cause { IsCaused result (⟦<MemHost as Host>⟧.disk_faults self.old) (⟦<MemHost as Host>⟧.disk_faults self.new) }
        ensures input { ⟦<MemHost as Host>⟧.input_faults self.new ≡ ⟦<MemHost as Host>⟧.input_faults self.old }
        ensures output { ⟦<MemHost as Host>⟧.output_faults self.new ≡ ⟦<MemHost as Host>⟧.output_faults self.old }
    {
        if self.disks.count() {
            record::break_sync(&mut self.calls, tape);
            return Err(fault(&mut self.disk_faults));
        }
        if record::sync(&mut self.calls, tape).is_err() {
            return Err(fault(&mut self.disk_faults));
        }
        Ok(())
    }

    ghost settled = { λ h tell. h.settled_so };
}
