//! A file as a sink.

ghost use Rattle.std.specs.Prelude.{◌≡◌, None};

use crate::{Failed, Sink};
use std::fs;
use std::io::Write;
use std::rt::Files;

/// The file at a path, which is made at the first write. What is in it isn't told. Its count of faults begins at 0: a file
/// that can't be made counts, and so do a write that fails and one that takes nothing of a piece.
pub struct FileSink<R: Files> {
    rt: R,
    path: String,
    file: Option<R::File>,
    faults: u64,
}

impl<R: Files + Drop> Drop for FileSink<R> {
    fn drop(self) {
        let Self {
            rt: _,
            path: _,
            file: _,
            faults: _,
        } = self;
    }
}

impl<R: Files> FileSink<R> {
    /// The file at this path, which isn't made yet. It takes no memory.
    pub fn new(rt: R, path: String) -> FileSink<R>
        ensures faults { result.faults ≡ 0 }
    {
        FileSink {
            rt,
            path,
            file: None,
            faults: 0,
        }
    }
}

impl<R: Files> Sink for FileSink<R> {
    ghost written = { λ s. None };

    ghost faults = { λ s. s.faults };

    fn write(&mut self, piece: &[u8]) -> Result<usize, Failed> {
        if self.file.is_none() {
            if let Ok(file) = fs::create(&self.rt, self.path.as_str()) {
                self.file = Some(file);
            }
        }
        if let Some(file) = &mut self.file {
            if let Ok(count) = file.write(piece) {
                if count > 0 || piece.is_empty() {
                    return Ok(count);
                }
            }
        }
        self.faults = self.faults.saturating_add(1);
        Err(Failed)
    }
}
