// What is counted of a generated session.
ghost use Rattle.std.specs.Prelude.{◌≡◌, ◌+◌, ◌++◌, [], ◌∷◌, List, length, decimal, IfOk, OnOk};
ghost use Rattle.serde_json.specs.Data.{Data};
ghost use Rattle.cad_runs.specs.Commands as runs;
ghost use Rattle.cad_world.specs.Live as known;
ghost use Rattle.cad_world.specs.State.{World};
ghost use Rattle.cad_serve.specs.Generated as spec;
ghost use Rattle.cad_serve.specs.Code.Counted as code;
ghost use Rattle.cad_serve.specs.Code.Counted.{IsCounted};
ghost use Rattle.cad_answers.specs.Code.Views.{Tells};

use cad_answers::Reply;
use cad_syntax::Text;
use std::alloc::{AllocError, Global};

/// How many lines there were, how many of them were replied to with ok and with failed, and how many identities were made and
/// destroyed.
#[derive(Drop)]
pub struct Counts {
    pub lines: u64,
    pub ok: u64,
    pub failed: u64,
    pub made: u64,
    pub destroyed: u64,
}

// The sum. AllocError where 64 bits don't hold it.
fn sum(a: u64, b: u64) -> Result<u64, AllocError>
    ensures { IfOk result (λ n. n ≡ a + b) }
{
    match a.checked_add(b) {
        Some(n) => Ok(n),
        None => Err(AllocError),
    }
}

// How many identities were made, as a reply tells.
fn made_in(reply: &Reply) -> u64
    ensures { result ≡ code.made_in reply.now }
{
    match reply {
        Reply::Ran(receipt) => receipt.made.len() as u64,
        _ => 0,
    }
}

// How many identities were destroyed, as a reply tells.
fn destroyed_in(reply: &Reply) -> u64
    ensures { result ≡ code.destroyed_in reply.now }
{
    match reply {
        Reply::Ran(receipt) => receipt.destroyed.len() as u64,
        _ => 0,
    }
}

// 1 where a reply is ok, else 0.
fn ok_in(reply: &Reply) -> u64
    ensures { result ≡ code.ok_in reply.now }
{
    match reply {
        Reply::Result(_) => 1,
        Reply::Account(_) => 1,
        Reply::Ran(_) => 1,
        _ => 0,
    }
}

// 1 where a run failed, else 0.
fn failed_in(reply: &Reply) -> u64
    ensures { result ≡ code.failed_in reply.now }
{
    match reply {
        Reply::Failed(_) => 1,
        Reply::IllTyped => 1,
        _ => 0,
    }
}

// Appends a number in decimal, with a text behind it.
fn push_count(alloc: Global, text: &mut Text, count: u64, tail: &str) -> Result<(), AllocError>
    ensures { OnOk result (text.new ≡ text.old ++ decimal count ++ tail.now) }
{
    let digits = count.to_string(alloc)?;
    text.push_str(digits.as_str())?;
    text.push_str(tail)
}

// The line of counts.
fn counts_text(
    alloc: Global,
    destroyed: u64,
    failed: u64,
    lines: u64,
    live: u64,
    made: u64,
    ok: u64,
) -> Result<Text, AllocError>
    ensures { IfOk result (λ text. text ≡ spec.counts_text destroyed failed lines live made ok) }
{
    let mut text = Text::from_str(alloc, "{\"destroyed\":\"")?;
    push_count(alloc, &mut text, destroyed, "\",\"failed\":\"")?;
    push_count(alloc, &mut text, failed, "\",\"lines\":\"")?;
    push_count(alloc, &mut text, lines, "\",\"live\":\"")?;
    push_count(alloc, &mut text, live, "\",\"made\":\"")?;
    push_count(alloc, &mut text, made, "\",\"ok\":\"")?;
    push_count(alloc, &mut text, ok, "\"}")?;
    text.push_str("\n")?;
    Ok(text)
}

impl Counts {
    /// Nothing was counted.
    pub fn new() -> Counts
        ensures { IsCounted result [] }
    {
        Counts {
            lines: 0,
            ok: 0,
            failed: 0,
            made: 0,
            destroyed: 0,
        }
    }

    /// These counts and those of one more reply.
    pub fn with(&self, reply: &Reply) -> Result<Counts, AllocError>
        ensures { IfOk result (λ more. (answers : List (runs.Reply Data)) (a : runs.Reply Data) → Tells reply.now a → IsCounted self.now answers → IsCounted more (answers ++ a ∷ [])) }
    {
        let lines = sum(self.lines, 1)?;
        let ok = sum(self.ok, ok_in(reply))?;
        let failed = sum(self.failed, failed_in(reply))?;
        let made = sum(self.made, made_in(reply))?;
        let destroyed = sum(self.destroyed, destroyed_in(reply))?;
        Ok(Counts {
            lines,
            ok,
            failed,
            made,
            destroyed,
        })
    }

    /// Their line, with how many identities live.
    pub fn line(&self, alloc: Global, live: u64) -> Result<Text, AllocError>
        ensures { IfOk result (λ text. (answers : List (runs.Reply Data)) (w : World) → IsCounted self.now answers → live ≡ length (known.live w) → text ≡ spec.counts_line answers w) }
    {
        counts_text(
            alloc,
            self.destroyed,
            self.failed,
            self.lines,
            live,
            self.made,
            self.ok,
        )
    }
}
