// What opens a file.
ghost use Rattle.std.specs.Prelude.{ℕ, List, Option, None, IfOk};
ghost use Rattle.std.specs.Io.KnownBytes.{Keeps};

use star_io::Failed;
use std::fs;
use std::io::Read;
use std::rt::Files;

/// What opens files, each to be read from its first byte on.
pub trait Opener {
    /// A file that was opened.
    type File: Read + Drop;

    /// The bytes of the file at a path, where the opener tells them.
    ghost bytes_at: { Self → List ℕ → Option (List ℕ) };

    /// Opens the file at a path. It tells the bytes that the opener tells of the path.
    fn open(&self, path: &str) -> Result<Self::File, Failed>
        ensures held { IfOk result (λ file.
            Keeps (bytes_at self.now path.now) (Self.File.remaining file)) };
}

/// The files of the host. No contract says what they hold, nor that it is the file at the path that
/// is opened.
#[derive(Drop)]
pub struct HostFiles<'a, R: Files> {
    files: &'a R,
}

impl<'a, R: Files> HostFiles<'a, R> {
    /// The files of this host.
    pub fn new(files: &'a R) -> HostFiles<'a, R> {
        HostFiles { files }
    }
}

impl<'a, R: Files> Opener for HostFiles<'a, R> {
    type File = R::File;

    ghost bytes_at = { λ _ _. None };

    fn open(&self, path: &str) -> Result<R::File, Failed> {
        fs::open(self.files, path).map_err(|_| Failed)
    }
}
