//! The files of the system as a shelf.

ghost use Rattle.std.specs.Prelude.{None, ⊤};
ghost use Rattle.std.proofs.Common.{rules};

use crate::faults::{fault, read_again};
use iso_base::{Failed, Memory, Shelf};
use std::alloc::Global;
use std::io::{BufRead, BufReader, Read};
use std::rt::Files;
use std::{fs, io};

/// How many bytes of a file are read ahead.
const AHEAD: usize = 65536;

/// A file, where one was begun.
#[derive(Drop)]
struct Begun<F> {
    file: Option<F>,
}

impl<F: Read> Read for Begun<F> {
    fn read(&mut self, buf: &mut [u8]) -> io::Result<usize> {
        match &mut self.file {
            Some(file) => file.read(buf),
            None => Ok(0),
        }
    }
}

/// The files of the system, of which one at a time is open. It tells nothing of their content.
#[derive(Drop)]
pub struct FileShelf<'a, R: Files> {
    rt: &'a R,
    reader: BufReader<Begun<R::File>>,
    faults: u64,
}

impl<'a, R: Files> FileShelf<'a, R> {
    /// A shelf over the files that `rt` opens. No file is begun. The memory to read ahead in is taken here.
    pub fn new(alloc: Global, rt: &'a R) -> Result<FileShelf<'a, R>, Memory> {
        match BufReader::with_capacity(alloc, AHEAD, Begun { file: None }) {
            Ok(reader) => Ok(FileShelf {
                rt,
                reader,
                faults: 0,
            }),
            Err(_) => Err(Memory),
        }
    }
}

impl<R: Files> Shelf for FileShelf<'_, R> {
    ghost files = { λ _. None };

    ghost rest = { λ _. None };

    ghost faults = { λ s. s.faults };

    ghost sound = { λ _. ⊥ };

    ghost sound_tells = { Prim.search rules };

    ghost rest_told = { Prim.search rules };

    fn begin(&mut self, name: &str) -> Result<(), Failed> {
        let unread = self.reader.buffer().len();
        self.reader.consume(unread);
        match fs::open(self.rt, name) {
            Ok(file) => {
                self.reader.get_mut().file = Some(file);
                Ok(())
            }
            Err(_) => {
                self.reader.get_mut().file = None;
                Err(fault(&mut self.faults))
            }
        }
    }

    fn take(&mut self, buf: &mut [u8]) -> Result<usize, Failed> {
        match read_again(&mut self.reader, buf) {
            Ok(count) => Ok(count),
            Err(_) => Err(fault(&mut self.faults)),
        }
    }
}

#[cfg(test)]
mod tests {
    use super::*;
    use std::process;
    use std::test::Fail;

    #[test]
    fn files_are_read_from_their_first_byte(rt: HostRuntime) -> Result<(), Fail> {
        let id = process::id(rt.process());
        let path = format!(in rt.alloc(); "iso-file-shelf-{id}")?;
        let name = path.as_str();
        fs::write(&rt, name, vec![in rt.alloc(); 7u8; 70_000]?.as_slice())?;
        let mut shelf = FileShelf::new(rt.alloc(), &rt)?;
        let mut buf = [0; 4096];

        // Whole, in more than one reading ahead, and again from its first byte.
        for begun in 0..2 {
            shelf.begin(name)?;
            let mut taken = 0usize;
            for _ in 0..20 {
                taken = taken.saturating_add(shelf.take(&mut buf)?);
            }
            assert_eq!(rt; taken, 70_000, "begun {begun}");
            assert_eq!(rt; shelf.take(&mut buf)?, 0, "begun {begun}");
        }

        // A name that is not there, and a directory.
        fs::remove_file(&rt, name)?;
        assert_eq!(rt; shelf.begin(name), Err(Failed { count: 1 }));
        assert_eq!(rt; shelf.take(&mut buf)?, 0);
        shelf.begin(".")?;
        assert_eq!(rt; shelf.take(&mut buf), Err(Failed { count: 2 }));
        Ok(())
    }
}
