//! The room of the system's files.

ghost use Rattle.std.specs.Prelude.{◌≡◌, None};

use crate::faults::OpenFault;
use crate::passing::pass_on;
use crate::reader_source::FileSource;
use crate::rooms::Room;
use crate::writer_sink::FileSink;
use std::fs::File;
use std::rt::Files;

/// The files of a runtime, by their paths. It tells nothing. A path that the system doesn't open is a fault.
#[derive(Drop)]
pub struct HostRoom<'a, R> {
    files: &'a R,
    read_faults: u64,
    write_faults: u64,
}

impl<'a, R: Files<File = File>> HostRoom<'a, R> {
    /// A room with no fault.
    pub fn new(files: &'a R) -> Self
        ensures read { ⟦<HostRoom<'a, R> as Room>⟧.read_faults result ≡ 0 }
        ensures write { ⟦<HostRoom<'a, R> as Room>⟧.write_faults result ≡ 0 }
    {
        HostRoom {
            files,
            read_faults: 0,
            write_faults: 0,
        }
    }
}

impl<'a, R: Files<File = File>> Room for HostRoom<'a, R> {
    type In = FileSource;

    type Out = FileSink;

    ghost input = { λ _ _. None };

    ghost shut_outputs = { λ _. None };

    ghost open_outputs = { λ _. None };

    ghost read_faults = { λ room. room.read_faults };

    ghost write_faults = { λ room. room.write_faults };

    fn open_in(&mut self, name: &str) -> Result<FileSource, OpenFault> {
        match File::open(self.files, name) {
            Ok(file) => Ok(FileSource::new(file)),
            Err(_) => {
                self.read_faults = self.read_faults.saturating_add(1);
                Err(OpenFault::Failed)
            }
        }
    }

    /// A file that is there is emptied.
    fn open_out(&mut self, name: &str) -> Result<FileSink, OpenFault> {
        match File::create(self.files, name) {
            Ok(file) => Ok(FileSink::new(file)),
            Err(_) => {
                self.write_faults = self.write_faults.saturating_add(1);
                Err(OpenFault::Failed)
            }
        }
    }

    fn shut_in(&mut self, source: FileSource) {
        pass_on(source.faults(), &mut self.read_faults);
        source.close();
    }

    fn shut(&mut self, out: FileSink) {
        pass_on(out.faults(), &mut self.write_faults);
        out.close();
    }
}
