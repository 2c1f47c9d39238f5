// The image of a crash, by a replay of the record of calls.
ghost use Rattle.std.specs.Prelude.{◌≡◌, ◌∷◌, List, ℕ, IfOk, OnOk};
ghost use Rattle.cad_host.specs.Disk.{Event, state, IsImage};
ghost use Rattle.cad_host.specs.Crash.{IsFilledImage};
ghost use Rattle.cad_host.specs.Code.Replay.{IsReplayed};
ghost use Rattle.cad_host.specs.Record.{event_of, trace_of};

use crate::Tape;
use crate::call::Call;
use crate::tapes::overwrite;
use std::alloc::{AllocError, Global};

fn copy(held: &mut Vec<u8>, bytes: &[u8]) -> Result<(), AllocError>
    ensures { OnOk result (held.new.items ≡ bytes.now) }
{
    held.clear();
    held.extend_from_slice(bytes)
}

/// Replays one call on what the tape reads and on the image. A write never stands past the end.
fn replay_call(
    alloc: Global,
    call: &Call,
    tape: Tape,
    fill: u8,
    reads: &mut Vec<u8>,
    image: &mut Vec<u8>,
) -> Result<(), AllocError>
    ensures { OnOk result ((m : List Event) → IsReplayed fill (state tape m) reads.old.items image.old.items
        → IsReplayed fill (state tape (event_of call.now m ∷ m)) reads.new.items image.new.items) }
{
    match call {
        Call::Wrote(of, at, bytes) => {
            if *of == tape {
                let filling = vec![in alloc; fill; bytes.len()]?;
                let place = (*at as usize).min(image.len());
                overwrite(image, place, &filling)?;
                let place = (*at as usize).min(reads.len());
                overwrite(reads, place, bytes)?;
            }
        }
        Call::BrokeWrite(of, at, bytes) => {
            if *of == tape {
                let place = (*at as usize).min(reads.len());
                overwrite(reads, place, &bytes[..bytes.len() / 2])?;
                let count = bytes.len().min(reads.len() - place);
                let filling = vec![in alloc; fill; count]?;
                let place = (*at as usize).min(image.len());
                overwrite(image, place, &filling)?;
            }
        }
        Call::Synced(of) => {
            if *of == tape {
                copy(image, reads)?;
            }
        }
        Call::Filled(of, bytes) => {
            if *of == tape {
                copy(image, bytes)?;
                copy(reads, bytes)?;
            }
        }
        Call::BrokeSync(_)
        | Call::Put(_)
        | Call::PutPart(_)
        | Call::Took(_)
        | Call::TakeFailed
        | Call::LookFailed(_) => {}
    }
    Ok(())
}

/// The image of a tape after these calls in which each byte that may be anything is `fill`.
pub fn image_of(alloc: Global, calls: &[Call], tape: Tape, fill: u8) -> Result<Vec<u8>, AllocError>
    ensures exact { IfOk result (λ v. IsFilledImage fill (state tape (trace_of calls.now)) v.items) }
    ensures image { IfOk result (λ v. IsImage (state tape (trace_of calls.now)) v.items) }
{
    let mut reads = Vec::new(alloc);
    let mut image = Vec::new(alloc);
    for call in calls {
        replay_call(alloc, call, tape, fill, &mut reads, &mut image)?;
    }
    Ok(image)
}
