// A host over the standard streams and three files.
ghost use Rattle.std.specs.Prelude.{◌≡◌, ◌≤◌, [], IfOk, length};

use crate::faults::fault;
use crate::folder::Folder;
use crate::{Failed, Host, Tape};
use std::alloc::{AllocError, Global};
use std::fs::Files;
use std::io::{self, ErrorKind, Read};

/// A host over the standard input, the standard output and the files `a`, `b` and `pick` of a folder. It tells no contents.
/// The first disk call opens the files, or makes them; a folder that isn't there is a fault of that call. A call that the
/// system refuses fails, and raises the count of its kind.
#[derive(Drop)]
pub struct FileHost<R: Input + Print + Files + Drop> {
    rt: R,
    input: R::Reader,
    folder: Folder<R::File>,
    input_faults: u64,
    output_faults: u64,
    disk_faults: u64,
}

impl<R: Input + Print + Files + Drop> FileHost<R> {
    /// A host over this folder. It opens nothing.
    pub fn new(alloc: Global, rt: R, folder: &str) -> Result<Self, AllocError>
        ensures input_faults { IfOk result (λ h. ⟦<FileHost<R> as Host>⟧.input_faults h ≡ 0) }
        ensures output_faults { IfOk result (λ h. ⟦<FileHost<R> as Host>⟧.output_faults h ≡ 0) }
        ensures disk_faults { IfOk result (λ h. ⟦<FileHost<R> as Host>⟧.disk_faults h ≡ 0) }
    {
        let folder = Folder::new(alloc, folder)?;
        let input = rt.reader();
        Ok(FileHost {
            rt,
            input,
            folder,
            input_faults: 0,
            output_faults: 0,
            disk_faults: 0,
        })
    }
}

/// Reads once, and again where a signal cut the call short.
fn read_once<T: Read>(reader: &mut T, into: &mut [u8]) -> io::Result<usize>
    ensures { IfOk result (λ n. n ≤ length into.old) }
{
    for _ in 0..u64::MAX {
        match reader.read(into) {
            Ok(count) => return Ok(count),
            Err(error) => {
                if error.kind() != ErrorKind::Interrupted {
                    return Err(error);
                }
            }
        }
    }
    Err(io::Error::from(ErrorKind::Interrupted))
}

impl<R: Input + Print + Files + Drop> Host for FileHost<R> {
    ghost tells = { ⊥ };

    ghost trace = { λ _. [] };

    ghost left = { λ _. [] };

    ghost input_faults = { λ h. h.input_faults };

    ghost output_faults = { λ h. h.output_faults };

    ghost disk_faults = { λ h. h.disk_faults };

    fn take(&mut self, into: &mut [u8]) -> Result<usize, Failed> {
        match read_once(&mut self.input, into) {
            Ok(count) => Ok(count),
            Err(_) => Err(fault(&mut self.input_faults)),
        }
    }

    fn put(&mut self, bytes: &[u8]) -> Result<(), Failed> {
        match self.rt.write_all(bytes) {
            Ok(()) => Ok(()),
            Err(_) => Err(fault(&mut self.output_faults)),
        }
    }

    fn length(&mut self, tape: Tape) -> Result<u64, Failed> {
        match self.folder.length(&self.rt, tape) {
            Ok(length) => Ok(length),
            Err(_) => Err(fault(&mut self.disk_faults)),
        }
    }

    fn read(&mut self, tape: Tape, at: u64, into: &mut [u8]) -> Result<usize, Failed> {
        match self.folder.read(&self.rt, tape, at, into) {
            Ok(count) => Ok(count),
            Err(_) => Err(fault(&mut self.disk_faults)),
        }
    }

    fn write(&mut self, tape: Tape, at: u64, bytes: &[u8]) -> Result<(), Failed> {
        match self.folder.write(&self.rt, tape, at, bytes) {
            Ok(()) => Ok(()),
            Err(_) => Err(fault(&mut self.disk_faults)),
        }
    }

    fn sync(&mut self, tape: Tape) -> Result<(), Failed> {
        match self.folder.sync(&self.rt, tape) {
            Ok(()) => Ok(()),
            Err(_) => Err(fault(&mut self.disk_faults)),
        }
    }

    ghost settled = { λ _ tell. absurd tell };
}
