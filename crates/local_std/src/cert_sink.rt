// The sink that the program writes its certificate to.
ghost use Rattle.std.specs.Prelude.{◌≡◌, None};
ghost use Rattle.local_std.specs.CertSink.{faults_of};

use io_edge::{Failed, FileSink, NoSink, Sink};
use std::rt::Files;

/// A file, or nothing. It passes each write on to the sink that it holds.
pub enum CertSink<R: Files> {
    File(FileSink<R>),
    Nothing(NoSink),
}

impl<R: Files + Drop> Drop for CertSink<R> {
    fn drop(self) {
        match self {
            CertSink::File(_) => {}
            CertSink::Nothing(_) => {}
        }
    }
}

impl<R: Files> Sink for CertSink<R> {
    ghost written = { λ s. None };

    ghost faults = { λ s. faults_of s };

    fn write(&mut self, piece: &[u8]) -> Result<usize, Failed> {
        match self {
            CertSink::File(file) => file.write(piece),
            CertSink::Nothing(nothing) => nothing.write(piece),
        }
    }
}
