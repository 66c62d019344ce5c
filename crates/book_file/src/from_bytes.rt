// The book with which bytes begin.
ghost use Rattle.std.specs.Prelude.{◌≡◌, ◌⊎◌, ℕ, List, IfOk, IsOkAnd, IfErr, Err, drop, length};
ghost use Rattle.book_file.specs.declared.book_kind.BookKind.{BookKind};
ghost use Rattle.book_file.specs.Book.{Book};
ghost use Rattle.book_file.specs.Format.{FaultAt};
ghost use Rattle.book_file.specs.Spelling.{Begins, spelling};
ghost use Rattle.book_file.specs.Reading.{Reads, HasFault};

use crate::book_error::{BookError, NextBookError, ReadBook};
use crate::book_kind::BookKind;
use crate::from_source::next_book;
use crate::slice_source::SliceSource;
use std::alloc::Global;

/// The book with which the bytes begin, and how many of them spell it; or their first fault.
pub fn read_book(alloc: Global, bytes: &[u8]) -> Result<ReadBook, BookError>
    ensures reads { Reads bytes.now result }

    // Unless memory runs out, Ok comes exactly where the bytes begin with a book.
    ensures found { IfOk result (λ r. Begins r.book bytes.now (drop r.used bytes.now)) }
    ensures used { IfOk result (λ r. r.used ≡ length (spelling r.book)) }
    ensures only { (book : Book) (rest : List ℕ) → Begins book bytes.now rest →
        (result ≡ Err BookError.NoMemory) ⊎ IsOkAnd result (λ r. r.book ≡ book) }

    // Else it is the one fault of these bytes.
    ensures fault { IfErr result (HasFault bytes.now) }
    ensures one { (kind : BookKind) (at : ℕ) → FaultAt bytes.now kind at →
        (result ≡ Err BookError.NoMemory) ⊎ (result ≡ Err (BookError.Bad kind at)) }
{
    let mut source = SliceSource::new(bytes);
    match next_book(alloc, &mut source) {
        Ok(Some(found)) => Ok(found),
        Ok(None) => Err(BookError::Bad {
            kind: BookKind::Truncated,
            at: 0,
        }),
        Err(NextBookError::Bad(bad)) => Err(BookError::Bad {
            kind: bad.kind,
            at: bad.at,
        }),
        Err(NextBookError::NoMemory) => Err(BookError::NoMemory),
        Err(NextBookError::Read) => unreachable!(),
    }
}
