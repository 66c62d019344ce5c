//! Laws of books. Each function does nothing: its clauses are facts about the definitions.
ghost use Rattle.std.specs.Prelude.{◌≡◌, ◌<◌, ◌≤◌, ◌^◌, ◌↔◌, ℕ, List, Ok, Err, length};
ghost use Rattle.std.specs.List.Sorted.{IsPermutation};
ghost use Rattle.star_io.specs.Bytes.{AreBytes};
ghost use Rattle.star_io.specs.declared.record.Record.{Record};
ghost use Rattle.star_io.specs.declared.record.TheConstants.{MAX_RECORDS};
ghost use Rattle.layer_walk.specs.Reveal.{reveal_of};
ghost use Rattle.star_lists.specs.Elements.{EquallyOften};
ghost use Rattle.layer_walk.specs.Laws.{TellAlike};
ghost use Rattle.book_file.specs.Book.{Book};
ghost use Rattle.book_file.specs.BookOf.{book_of};
ghost use Rattle.book_file.specs.declared.book_kind.BookKind.{BookKind};
ghost use Rattle.book_merge.specs.declared.fault.MergeFault.{MergeFault};
ghost use Rattle.book_merge.specs.Machines.{FitOneBook, books_of_all, records_of_all};
ghost use Rattle.book_merge.specs.Merging.{merged};
ghost use Rattle.book_merge.specs.Sums.{IsSumOf, HasBadBook, HasOtherEpoch, HasTooMuch};
ghost use Rattle.book_merge.specs.Records.{records_of};
ghost use Rattle.book_merge.specs.declared.limits.TheConstants.{MAX_BOOKS_BYTES, MAX_BOOKS};

/// A book reveals the groups, levels and rows that its records do.
pub fn book_reveals()
    ensures { (e : ℕ) (records : List Record) →
        TellAlike (reveal_of e (records_of (book_of e records))) (reveal_of e records) }
{}

/// What the sum of books is, and what it means that bytes have none.
pub fn merge_means()
    ensures sum { (e : ℕ) (bytes : List ℕ) (total : Book) → AreBytes bytes →
        (merged e bytes ≡ Ok total) ↔ IsSumOf e bytes total }
    ensures bad_book { (e : ℕ) (bytes : List ℕ) (number : ℕ) (kind : BookKind) (at : ℕ) →
        AreBytes bytes →
        (merged e bytes ≡ Err (MergeFault.BadBook number kind at))
        ↔ HasBadBook e bytes number kind at }
    ensures other_epoch { (e : ℕ) (bytes : List ℕ) (number have : ℕ) → AreBytes bytes →
        (merged e bytes ≡ Err (MergeFault.BookEpoch number have))
        ↔ HasOtherEpoch e bytes number have }
    ensures too_many { (e : ℕ) (bytes : List ℕ) → AreBytes bytes →
        (merged e bytes ≡ Err MergeFault.TooMany) ↔ HasTooMuch e bytes }
{}

/// The same records have the same book, in whatever order they come.
pub fn order_apart()
    ensures { (e : ℕ) (xs ys : List Record) → EquallyOften xs ys → book_of e xs ≡ book_of e ys }
{}

/// The books of several machines, joined, have as their sum the book of all records of all
/// machines (`sum`). Their books are few enough bytes wherever there are at most 1,024 machines
/// (`fit`), and machines in another order have the same records as often (`turned`).
pub fn machines_agree()
    ensures sum { (e : ℕ) (machines : List (List Record)) → FitOneBook e machines →
        merged e (books_of_all e machines) ≡ Ok (book_of e (records_of_all machines)) }
    ensures fit { (e : ℕ) (machines : List (List Record)) → e < 2 ^ 32 →
        length (records_of_all machines) ≤ MAX_RECORDS → length machines ≤ 1024 →
        FitOneBook e machines }
    ensures turned { (machines others : List (List Record)) → IsPermutation machines others →
        EquallyOften (records_of_all machines) (records_of_all others) }
{}

/// The limits in plain numbers.
pub fn limits()
    ensures bytes { MAX_BOOKS_BYTES ≡ 1074549760 }
    ensures books { MAX_BOOKS ≡ 51169037 }
{}
