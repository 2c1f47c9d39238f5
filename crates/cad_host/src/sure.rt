// A host in memory without failing calls.
ghost use Rattle.std.specs.Prelude.{◌≡◌, ◌≤◌, ◌<◌, ◌-◌, ◌^◌, ◌++◌, ℕ, length, take, drop, min, [], ◌∷◌, IfOk, OnOk, OnErr, IsOk};
ghost use Rattle.cad_host.specs.Disk.{state, reads, IsDisk, IsClean, output, filled, Takes, Puts, Looks, Writes, Syncs};
ghost use Rattle.cad_host.specs.Crash.{at_moment, IsFilledImage};
ghost use Rattle.cad_host.specs.Faults.{IsCaused};
ghost use Rattle.cad_host.specs.Input.{Taking};
ghost use Rattle.cad_host.specs.Memory.{IsSure};
ghost use Rattle.cad_host.specs.declared.host.Tape.{Tape};

use crate::{Failed, Host, MemHost, Tape};
use std::alloc::{AllocError, Global};

/// A host in memory that fails only where it finds no memory: no call of it is to fail. Such a call changes nothing but
/// its count.
#[derive(Drop)]
pub struct SureHost {
    host: MemHost,
    ghost sure: { IsSure host },
}

impl SureHost {
    /// A host with this input and empty tapes.
    pub fn new(alloc: Global, input: &[u8]) -> Result<Self, AllocError>
        ensures trace { IfOk result (λ h. ⟦<SureHost as Host>⟧.trace h ≡ []) }
        ensures left { IfOk result (λ h. ⟦<SureHost as Host>⟧.left h ≡ input.now) }
        ensures input_faults { IfOk result (λ h. ⟦<SureHost as Host>⟧.input_faults h ≡ 0) }
        ensures output_faults { IfOk result (λ h. ⟦<SureHost as Host>⟧.output_faults h ≡ 0) }
        ensures disk_faults { IfOk result (λ h. ⟦<SureHost as Host>⟧.disk_faults h ≡ 0) }
    {
        Ok(SureHost {
            host: MemHost::new(alloc, input, &[], &[], &[])?,
        })
    }

    /// The output so far.
    pub fn output(&self) -> &[u8]
        ensures { result.now ≡ output (⟦<SureHost as Host>⟧.trace self.now) }
    {
        self.host.output()
    }

    /// What a tape reads.
    pub fn tape(&self, tape: Tape) -> &[u8]
        ensures { result.now ≡ reads (⟦<SureHost as Host>⟧.trace self.now) tape }
    {
        self.host.tape(tape)
    }

    /// Sets what a tape reads, with nothing pending. Where no memory is found, the host is as it was.
    pub fn fill(&mut self, tape: Tape, bytes: &[u8]) -> Result<(), AllocError>
        ensures ok { OnOk result (⟦<SureHost as Host>⟧.trace self.new ≡ filled tape bytes.now ∷ ⟦<SureHost as Host>⟧.trace self.old) }
        ensures err { OnErr result (⟦<SureHost as Host>⟧.trace self.new ≡ ⟦<SureHost as Host>⟧.trace self.old) }
        ensures left { ⟦<SureHost as Host>⟧.left self.new ≡ ⟦<SureHost as Host>⟧.left self.old }
        ensures input_faults { ⟦<SureHost as Host>⟧.input_faults self.new ≡ ⟦<SureHost as Host>⟧.input_faults self.old }
        ensures output_faults { ⟦<SureHost as Host>⟧.output_faults self.new ≡ ⟦<SureHost as Host>⟧.output_faults self.old }
        ensures disk_faults { ⟦<SureHost as Host>⟧.disk_faults self.new ≡ ⟦<SureHost as Host>⟧.disk_faults self.old }
    {
        self.host.fill(tape, bytes)
    }

    /// The moment: how many events came so far. A look at the tapes is none.
    pub fn now(&self) -> u64
        ensures { result ≡ length (⟦<SureHost as Host>⟧.trace self.now) }
    {
        self.host.now()
    }

    /// A host whose tapes are an image of an earlier moment, with nothing pending: as long as what reads there, and each
    /// byte that may be anything is `fill`. It has no input and no output.
    pub fn crash(&self, moment: u64, fill: u8) -> Result<SureHost, AllocError>
        requires { moment ≤ length (⟦<SureHost as Host>⟧.trace self.now) }
        ensures image { IfOk result (λ h. IsDisk (at_moment (⟦<SureHost as Host>⟧.trace self.now) moment) (reads (⟦<SureHost as Host>⟧.trace h))) }
        ensures exact { IfOk result (λ h. (t : Tape) → IsFilledImage fill (state t (at_moment (⟦<SureHost as Host>⟧.trace self.now) moment)) (reads (⟦<SureHost as Host>⟧.trace h) t)) }
        ensures clean { IfOk result (λ h. (t : Tape) → IsClean (state t (⟦<SureHost as Host>⟧.trace h))) }
        ensures output { IfOk result (λ h. output (⟦<SureHost as Host>⟧.trace h) ≡ []) }
        ensures left { IfOk result (λ h. ⟦<SureHost as Host>⟧.left h ≡ []) }
        ensures input_faults { IfOk result (λ h. ⟦<SureHost as Host>⟧.input_faults h ≡ 0) }
        ensures output_faults { IfOk result (λ h. ⟦<SureHost as Host>⟧.output_faults h ≡ 0) }
        ensures disk_faults { IfOk result (λ h. ⟦<SureHost as Host>⟧.disk_faults h ≡ 0) }
    {
        Ok(SureHost {
            host: self.host.crash(moment, fill)?,
        })
    }
}

impl Host for SureHost {
    ghost tells = { Unit {0} };

    ghost trace = { λ h. ⟦<MemHost as Host>⟧.trace h.host };

    ghost left = { λ h. ⟦<MemHost as Host>⟧.left h.host };

    ghost input_faults = { λ h. ⟦<MemHost as Host>⟧.input_faults h.host };

    ghost output_faults = { λ h. ⟦<MemHost as Host>⟧.output_faults h.host };

    ghost disk_faults = { λ h. ⟦<MemHost as Host>⟧.disk_faults h.host };

    fn take(&mut self, into: &mut [u8]) -> Result<usize, Failed>
        ensures nothing { OnErr result (⟦<SureHost as Host>⟧.trace self.new ≡ ⟦<SureHost as Host>⟧.trace self.old) }
        ensures count { IfOk result (λ n. n ≤ length into.old) }
        ensures bytes { Taking result (⟦<SureHost as Host>⟧.left self.old) (⟦<SureHost as Host>⟧.left self.new) into.old into.new }
        ensures story { Takes result into.new (⟦<SureHost as Host>⟧.trace self.old) (⟦<SureHost as Host>⟧.trace self.new) }
        ensures cause { IsCaused result (⟦<SureHost as Host>⟧.input_faults self.old) (⟦<SureHost as Host>⟧.input_faults self.new) }
        ensures output { ⟦<SureHost as Host>⟧.output_faults self.new ≡ ⟦<SureHost as Host>⟧.output_faults self.old }
        ensures disk { ⟦<SureHost as Host>⟧.disk_faults self.new ≡ ⟦<SureHost as Host>⟧.disk_faults self.old }
    {
        self.host.take(into)
    }

    fn put(&mut self, bytes: &[u8]) -> Result<(), Failed>
        ensures nothing { OnErr result (⟦<SureHost as Host>⟧.trace self.new ≡ ⟦<SureHost as Host>⟧.trace self.old) }
        ensures story { Puts bytes.now result (⟦<SureHost as Host>⟧.trace self.old) (⟦<SureHost as Host>⟧.trace self.new) }
        ensures stays { ⟦<SureHost as Host>⟧.left self.new ≡ ⟦<SureHost as Host>⟧.left self.old }
        ensures cause { IsCaused result (⟦<SureHost as Host>⟧.output_faults self.old) (⟦<SureHost as Host>⟧.output_faults self.new) }
        ensures input { ⟦<SureHost as Host>⟧.input_faults self.new ≡ ⟦<SureHost as Host>⟧.input_faults self.old }
        ensures disk { ⟦<SureHost as Host>⟧.disk_faults self.new ≡ ⟦<SureHost as Host>⟧.disk_faults self.old }
    {
        self.host.put(bytes)
    }

    fn length(&mut self, tape: Tape) -> Result<u64, Failed>
        ensures succeeds { IsOk result }
        ensures is { IfOk result (λ n. n ≡ length (reads (⟦<SureHost as Host>⟧.trace self.old) tape)) }
        ensures story { Looks tape result (⟦<SureHost as Host>⟧.trace self.old) (⟦<SureHost as Host>⟧.trace self.new) }
        ensures stays { ⟦<SureHost as Host>⟧.left self.new ≡ ⟦<SureHost as Host>⟧.left self.old }
        ensures cause { IsCaused result (⟦<SureHost as Host>⟧.disk_faults self.old) (⟦<SureHost as Host>⟧.disk_faults self.new) }
        ensures input { ⟦<SureHost as Host>⟧.input_faults self.new ≡ ⟦<SureHost as Host>⟧.input_faults self.old }
        ensures output { ⟦<SureHost as Host>⟧.output_faults self.new ≡ ⟦<SureHost as Host>⟧.output_faults self.old }
    {
        self.host.length(tape)
    }

    fn read(&mut self, tape: Tape, at: u64, into: &mut [u8]) -> Result<usize, Failed>
        ensures succeeds { IsOk result }
        ensures count { IfOk result (λ n. n ≤ length into.old) }
        ensures is { IfOk result (λ n. n ≡ min (length into.old) (length (reads (⟦<SureHost as Host>⟧.trace self.old) tape) - at)) }
        ensures bytes { IfOk result (λ n. into.new ≡ take n (drop at (reads (⟦<SureHost as Host>⟧.trace self.old) tape)) ++ drop n into.old) }
        ensures story { Looks tape result (⟦<SureHost as Host>⟧.trace self.old) (⟦<SureHost as Host>⟧.trace self.new) }
        ensures stays { ⟦<SureHost as Host>⟧.left self.new ≡ ⟦<SureHost as Host>⟧.left self.old }
        ensures cause { IsCaused result (⟦<SureHost as Host>⟧.disk_faults self.old) (⟦<SureHost as Host>⟧.disk_faults self.new) }
        ensures input { ⟦<SureHost as Host>⟧.input_faults self.new ≡ ⟦<SureHost as Host>⟧.input_faults self.old }
        ensures output { ⟦<SureHost as Host>⟧.output_faults self.new ≡ ⟦<SureHost as Host>⟧.output_faults self.old }
    {
        self.host.read(tape, at, into)
    }

    fn write(&mut self, tape: Tape, at: u64, bytes: &[u8]) -> Result<(), Failed>
        requires { at ≤ length (reads (⟦<SureHost as Host>⟧.trace self.old) tape) }
        ensures nothing { OnErr result (⟦<SureHost as Host>⟧.trace self.new ≡ ⟦<SureHost as Host>⟧.trace self.old) }
        ensures story { Writes tape at bytes.now result (⟦<SureHost as Host>⟧.trace self.old) (⟦<SureHost as Host>⟧.trace self.new) }
        ensures fits { OnOk result (length (reads (⟦<SureHost as Host>⟧.trace self.new) tape) < 2 ^ 64) }
        ensures stays { ⟦<SureHost as Host>⟧.left self.new ≡ ⟦<SureHost as Host>⟧.left self.old }
        ensures cause { IsCaused result (⟦<SureHost as Host>⟧.disk_faults self.old) (⟦<SureHost as Host>⟧.disk_faults self.new) }
        ensures input { ⟦<SureHost as Host>⟧.input_faults self.new ≡ ⟦<SureHost as Host>⟧.input_faults self.old }
        ensures output { ⟦<SureHost as Host>⟧.output_faults self.new ≡ ⟦<SureHost as Host>⟧.output_faults self.old }
    {
        self.host.write(tape, at, bytes)
    }

    fn sync(&mut self, tape: Tape) -> Result<(), Failed>
        ensures nothing { OnErr result (⟦<SureHost as Host>⟧.trace self.new ≡ ⟦<SureHost as Host>⟧.trace self.old) }
        ensures story { Syncs tape result (⟦<SureHost as Host>⟧.trace self.old) (⟦<SureHost as Host>⟧.trace self.new) }
        ensures stays { ⟦<SureHost as Host>⟧.left self.new ≡ ⟦<SureHost as Host>⟧.left self.old }
        ensures cause { IsCaused result (⟦<SureHost as Host>⟧.disk_faults self.old) (⟦<SureHost as Host>⟧.disk_faults self.new) }
        ensures input { ⟦<SureHost as Host>⟧.input_faults self.new ≡ ⟦<SureHost as Host>⟧.input_faults self.old }
        ensures output { ⟦<SureHost as Host>⟧.output_faults self.new ≡ ⟦<SureHost as Host>⟧.output_faults self.old }
    {
        self.host.sync(tape)
    }

    ghost settled = { λ h tell. h.host.settled_so };
}
