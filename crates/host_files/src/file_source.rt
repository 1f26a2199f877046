//! The inputs of the program: files by their paths, and standard input as `-`.
ghost use Rattle.std.specs.Prelude.{◌≡◌, ◌≤◌, ⊤, length, IfOk};
ghost use Rattle.input_output.specs.Source.{Unknown};

use input_output::{Failed, Source};
use std::alloc::Global;
use std::io::{Read, Seek, SeekFrom};
use std::rt::Files;
use std::{fs, io};

// The name of standard input.
const STANDARD_INPUT: &str = "-";

// A reader, and the place that it has come to.
#[derive(Drop)]
struct Stream<T> {
    reader: T,
    place: u64,
}

impl<T: Read> Stream<T> {
    fn read(&mut self, buf: &mut [u8]) -> io::Result<usize>
        ensures { IfOk result (λ count. count ≤ length buf.old) }
    {
        let count = self.reader.read(buf)?;
        self.place = self.place.saturating_add(count as u64);
        Ok(count)
    }
}

#[derive(Drop)]
struct OpenedFile<F> {
    name: String,
    stream: Stream<F>,
}

/// Files and standard input. It shows nothing of their bytes. Standard input is read in its order: a read at another
/// place than where the last one ended is a fault. The file that was read last is kept open.
#[derive(Drop)]
pub struct FileSource<'a, R: Files + Input> {
    rt: &'a R,
    alloc: Global,
    standard: Stream<R::Reader>,
    file: Option<OpenedFile<R::File>>,
    faults: u64,
}

impl<'a, R: Files + Input> FileSource<'a, R> {
    /// No input read yet, and no fault.
    pub fn new(alloc: Global, rt: &'a R) -> Self
        ensures { result.faults ≡ 0 }
    {
        FileSource {
            rt,
            alloc,
            standard: Stream {
                reader: rt.reader(),
                place: 0,
            },
            file: None,
            faults: 0,
        }
    }

    fn read_standard(&mut self, at: u64, buf: &mut [u8]) -> io::Result<usize>
        ensures at_most { IfOk result (λ count. count ≤ length buf.old) }
        ensures faults { self.new.faults ≡ self.old.faults }
    {
        if at != self.standard.place {
            return Err(io::Error::from(io::ErrorKind::NotSeekable));
        }
        self.standard.read(buf)
    }

    fn read_file(&mut self, name: &str, at: u64, buf: &mut [u8]) -> io::Result<usize>
        ensures at_most { IfOk result (λ count. count ≤ length buf.old) }
        ensures faults { self.new.faults ≡ self.old.faults }
    {
        let mut file = match self.file.take() {
            Some(file) if file.name.as_str() == name && file.stream.place == at => file,
            _ => self.open(name, at)?,
        };
        let count = file.stream.read(buf)?;
        self.file = Some(file);
        Ok(count)
    }

    fn open(&self, name: &str, at: u64) -> io::Result<OpenedFile<R::File>> {
        let mut reader = fs::open(self.rt, name)?;
        if at > 0 {
            reader.seek(SeekFrom::Start(at))?;
        }
        Ok(OpenedFile {
            name: String::from_str(self.alloc, name)?,
            stream: Stream { reader, place: at },
        })
    }
}

impl<R: Files + Input> Source for FileSource<'_, R> {
    ghost content = { λ s name. Unknown };

    ghost may_read = { λ s name. ⊤ };

    ghost faults = { λ s. s.faults };

    fn read_at(&mut self, name: &str, at: u64, buf: &mut [u8]) -> Result<usize, Failed> {
        let read = if name == STANDARD_INPUT {
            self.read_standard(at, buf)
        } else {
            self.read_file(name, at, buf)
        };
        let Ok(count) = read else {
            self.faults = self.faults.saturating_add(1);
            return Err(Failed);
        };
        Ok(count)
    }
}
