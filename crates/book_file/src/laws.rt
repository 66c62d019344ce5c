//! Laws of books. Each function does nothing: its clause is a fact about the definitions that the
//! other contracts cite.
ghost use Rattle.std.specs.Prelude.{◌≡◌, ◌<◌, ◌≤◌, ◌^◌, ◌++◌, ℕ, List, Ok, Err, length, codes};
ghost use Rattle.book_file.specs.declared.book_kind.BookKind.{BookKind};
ghost use Rattle.book_file.specs.declared.book_error.BadBook.{BadBook};
ghost use Rattle.book_file.specs.declared.book_error.ReadBook.{ReadBook};
ghost use Rattle.book_file.specs.Format.{FaultAt};
ghost use Rattle.book_file.specs.Reading.{read_of};
ghost use Rattle.book_file.specs.Spelling.{Begins, spelling};
ghost use Rattle.star_io.specs.Bytes.{AreBytes};
ghost use Rattle.star_io.specs.declared.record.Record.{Record};
ghost use Rattle.book_file.specs.Book.{Book, IsBook, total_of};
ghost use Rattle.book_file.specs.BookOf.{book_of, sum_of};
ghost use Rattle.star_io.specs.declared.record.TheConstants.{MAX_RECORDS};
ghost use Rattle.book_file.specs.declared.limits.TheConstants.{BOOK_MAGIC, BOOK_VERSION, HEADER_BYTES, ENTRY_HEAD_BYTES};

/// The numbers of the format, plainly.
pub fn limits()
    ensures magic { BOOK_MAGIC ≡ codes "STARBOOK" }
    ensures version { BOOK_VERSION ≡ 1 }
    ensures sizes { (HEADER_BYTES ≡ 21) × (ENTRY_HEAD_BYTES ≡ 6) }
    ensures records { MAX_RECORDS ≡ 131072 }
{}

/// The book of a list of records counts each of them. It is a book, where there are no more of them
/// than a book may count.
pub fn books_of_records()
    ensures total { (e : ℕ) (records : List Record) →
        total_of (book_of e records) ≡ length records }
    ensures is_book { (e : ℕ) (records : List Record) → e < 2 ^ 32 →
        length records ≤ MAX_RECORDS → IsBook (book_of e records) }
{}

/// The sum of two books is the book of all their records, and that in either order.
pub fn books_add()
    ensures sum { (e : ℕ) (xs ys : List Record) → sum_of (book_of e xs) (book_of e ys)
        ≡ book_of e (xs ++ ys) }
    ensures turned { (e : ℕ) (xs ys : List Record) → book_of e (xs ++ ys) ≡ book_of e (ys ++ xs) }
{}

/// Books are added in either order and in any grouping.
pub fn sums_agree()
    ensures turned { (a b : Book) → a.epoch ≡ b.epoch → sum_of a b ≡ sum_of b a }
    ensures grouped { (a b c : Book) → sum_of (sum_of a b) c ≡ sum_of a (sum_of b c) }
{}

/// Bytes that begin with the spelling of a book are read as that book.
pub fn spelling_is_read()
    ensures { (book : Book) (bytes rest : List ℕ) → Begins book bytes rest →
        read_of bytes ≡ Ok (record { book = book; used = length (spelling book) }) }
{}

/// Bytes that are read as a book begin with its spelling.
pub fn read_is_spelling()
    ensures { (bytes : List ℕ) (found : ReadBook) → AreBytes bytes → read_of bytes ≡ Ok found →
        (rest : List ℕ) × Begins found.book bytes rest
        × (found.used ≡ length (spelling found.book)) }
{}

/// Bytes that are read as no book have the fault that reading names, and no other; bytes that are
/// read as one have none.
pub fn one_fault()
    ensures told { (bytes : List ℕ) (bad : BadBook) → read_of bytes ≡ Err bad →
        FaultAt bytes bad.kind bad.at }
    ensures only { (bytes : List ℕ) (bad : BadBook) → read_of bytes ≡ Err bad →
        (kind : BookKind) (at : ℕ) → FaultAt bytes kind at → (bad.kind ≡ kind) × (bad.at ≡ at) }
    ensures none { (bytes : List ℕ) (found : ReadBook) → read_of bytes ≡ Ok found →
        (kind : BookKind) (at : ℕ) → FaultAt bytes kind at → ⊥ }
{}
