// A source over a file.
ghost use Rattle.std.specs.Prelude.{◌≡◌, true, false, None, is_some, IfOk};
ghost use Rattle.std.specs.Io.{ReadsAtMost};
ghost use Rattle.std.specs.Io.KnownBytes.{ReadConsumes};
ghost use Rattle.star_io.specs.Faults.{CountsFault, HasCause};
ghost use Rattle.star_tool.specs.FileState.{left_of};

use crate::opener::Opener;
use star_io::{Failed, Source, StdSource};
use std::marker::Model;

/// A source over a file that is opened at the first take, seen as its path, whether it is open, the
/// bytes left and its count of faults. It tells the bytes that the opener tells of the path, and
/// once the file is open those that the file tells.
///
/// It counts each failed opening, after which the next take tries again, and each failed read.
#[derive(Drop)]
pub struct FileSource<'a, O: Opener> {
    opener: O,
    path: &'a str,
    file: Option<StdSource<O::File>>,
    faults: u64,
}

impl<'a, O: Opener> Model for FileSource<'a, O> {
    ghost use Rattle.std.specs.Prelude.{is_some};
    ghost use Rattle.star_tool.specs.FileState.{FileState, left_of};

    ghost Value = { FileState };

    ghost view = { λ s. record {
      path = s.path.now;
      is_open = is_some s.file;
      left = left_of (O.bytes_at s.opener s.path.now) s.file;
      faults = s.faults;
    } };
}

impl<'a, O: Opener> FileSource<'a, O> {
    /// A source over the file at this path, which isn't touched yet.
    pub fn new(opener: O, path: &'a str) -> FileSource<'a, O>
        ensures { result ≡ record {
          path = path.now;
          is_open = false;
          left = O.bytes_at opener path.now;
          faults = 0;
        } }
    {
        FileSource {
            opener,
            path,
            file: None,
            faults: 0,
        }
    }
}

impl<'a, O: Opener> Source for FileSource<'a, O> {
    ghost left = { λ s. s.left };

    ghost faults = { λ s. s.faults };

    fn take(&mut self, into: &mut [u8]) -> Result<usize, Failed>
        ensures bound { ReadsAtMost result into.new }
        ensures bytes { ReadConsumes self.old.left self.new.left result into.new }
        ensures cause { HasCause self.old.faults self.new.faults result }
        ensures counts { CountsFault self.old.faults self.new.faults result }
        ensures opened { IfOk result (λ _. self.new.is_open ≡ true) }
        ensures path { self.new.path ≡ self.old.path }
    {
        let result = read_file(&self.opener, self.path, &mut self.file, into);
        if result.is_err() {
            self.faults = self.faults.saturating_add(1);
        }
        result
    }
}

// Reads the file, which is opened first where it isn't open.
fn read_file<O: Opener>(
    opener: &O,
    path: &str,
    file: &mut Option<StdSource<O::File>>,
    into: &mut [u8],
) -> Result<usize, Failed>
    ensures bound { ReadsAtMost result into.new }
    ensures bytes { ReadConsumes (left_of (O.bytes_at opener.now path.now) file.old)
        (left_of (O.bytes_at opener.now path.now) file.new) result into.new }
    ensures opened { IfOk result (λ _. is_some file.new ≡ true) }
{
    let mut opened = match file.take() {
        Some(opened) => opened,
        None => StdSource::new(opener.open(path)?),
    };
    let result = opened.take(into);
    *file = Some(opened);
    result
}
