// Three files of a folder.
ghost use Rattle.std.specs.Prelude.{◌≤◌, IfOk, length};

use crate::Tape;
use std::alloc::{AllocError, Global};
use std::fs::{Files, OpenFile, OpenOptions};
use std::io::{self, ErrorKind, Read, Seek, SeekFrom, Write};

/// The names of the three files and of their folder.
#[derive(Drop)]
struct Paths {
    folder: String,
    a: String,
    b: String,
    pick: String,
}

/// The open files. The folder is opened for reading before them, three times: where standard streams were closed when the
/// program began, these take their numbers, and no tape does, so what is put or told fails in the place of going to a tape.
#[derive(Drop)]
struct TapeFiles<F> {
    _first: F,
    _second: F,
    _third: F,
    a: F,
    b: F,
    pick: F,
}

/// A folder, whose files are open from the first call on.
#[derive(Drop)]
pub struct Folder<F> {
    paths: Paths,
    files: Option<TapeFiles<F>>,
}

/// Opens a file, or makes it.
fn open_file<R: Files>(rt: &R, path: &str) -> io::Result<R::File> {
    OpenOptions::new()
        .read(true)
        .write(true)
        .create(true)
        .open(rt, path)
}

/// Opens a folder for reading.
fn open_folder<R: Files>(rt: &R, path: &str) -> io::Result<R::File> {
    OpenOptions::new().read(true).open(rt, path)
}

/// Opens the three files, and makes those that aren't there. Their names then stay, whatever comes.
fn open_files<R: Files>(rt: &R, paths: &Paths) -> io::Result<TapeFiles<R::File>> {
    let mut files = TapeFiles {
        _first: open_folder(rt, paths.folder.as_str())?,
        _second: open_folder(rt, paths.folder.as_str())?,
        _third: open_folder(rt, paths.folder.as_str())?,
        a: open_file(rt, paths.a.as_str())?,
        b: open_file(rt, paths.b.as_str())?,
        pick: open_file(rt, paths.pick.as_str())?,
    };
    files._first.sync_all()?;
    Ok(files)
}

/// Reads until the buffer is full or the file ends.
fn read_full<F: Read>(file: &mut F, into: &mut [u8]) -> io::Result<usize>
    ensures { IfOk result (λ n. n ≤ length into.old) }
{
    let mut filled = 0;
    for _ in 0..u64::MAX {
        if filled >= into.len() {
            break;
        }
        match file.read(&mut into[filled..]) {
            Ok(0) => break,
            Ok(count) => filled += count,
            Err(error) => {
                if error.kind() != ErrorKind::Interrupted {
                    return Err(error);
                }
            }
        }
    }
    Ok(filled)
}

impl<F> TapeFiles<F> {
    fn file(&mut self, tape: Tape) -> &mut F {
        match tape {
            Tape::A => &mut self.a,
            Tape::B => &mut self.b,
            Tape::Pick => &mut self.pick,
        }
    }
}

impl<F: Read + Write + Seek + OpenFile + Drop> Folder<F> {
    /// A folder of this name. It opens nothing.
    pub fn new(alloc: Global, folder: &str) -> Result<Self, AllocError> {
        let paths = Paths {
            folder: String::from_str(alloc, folder)?,
            a: format!(in alloc; "{folder}/a")?,
            b: format!(in alloc; "{folder}/b")?,
            pick: format!(in alloc; "{folder}/pick")?,
        };
        Ok(Folder { paths, files: None })
    }

    fn file<R: Files<File = F>>(&mut self, rt: &R, tape: Tape) -> io::Result<&mut F> {
        if self.files.is_none() {
            self.files = Some(open_files(rt, &self.paths)?);
        }
        match &mut self.files {
            Some(files) => Ok(files.file(tape)),
            None => Err(io::Error::from(ErrorKind::NotFound)),
        }
    }

    pub fn length<R: Files<File = F>>(&mut self, rt: &R, tape: Tape) -> io::Result<u64> {
        Ok(self.file(rt, tape)?.metadata()?.len())
    }

    pub fn read<R: Files<File = F>>(
        &mut self,
        rt: &R,
        tape: Tape,
        at: u64,
        into: &mut [u8],
    ) -> io::Result<usize>
        ensures { IfOk result (λ n. n ≤ length into.old) }
    {
        let file = self.file(rt, tape)?;
        file.seek(SeekFrom::Start(at))?;
        read_full(file, into)
    }

    pub fn write<R: Files<File = F>>(
        &mut self,
        rt: &R,
        tape: Tape,
        at: u64,
        bytes: &[u8],
    ) -> io::Result<()> {
        let file = self.file(rt, tape)?;
        file.seek(SeekFrom::Start(at))?;
        file.write_all(bytes)
    }

    pub fn sync<R: Files<File = F>>(&mut self, rt: &R, tape: Tape) -> io::Result<()> {
        self.file(rt, tape)?.sync_all()
    }
}
