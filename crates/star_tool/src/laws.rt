//! Laws of the commands: what a refusal of their input means, and what they tell. Each
//! function does nothing: its clauses are facts about the definitions that the contract of `run`
//! cites.
ghost use Rattle.std.specs.Prelude.{◌≡◌, ◌↔◌, ℕ, List, Option, None, Some, Ok, Err, ◌<◌, ◌^◌, ◌++◌, [], length, map, All, true, unwrap_or, codes};
ghost use Rattle.std.specs.List.{AllZip, flat_map};
ghost use Rattle.std.specs.List.Sorted.{IsPermutation};
ghost use Rattle.star_io.specs.Bytes.{AreBytes};
ghost use Rattle.star_io.specs.RecordLists.{HasMoreThan, stream_records, stream_of};
ghost use Rattle.star_io.specs.declared.record.TheConstants.{MAX_RECORDS};
ghost use Rattle.report_frame.specs.declared.version.Version.{Version};
ghost use Rattle.report_frame.specs.declared.version.Version.TheVariants.{One, Two};
ghost use Rattle.report_frame.specs.Thresholds.{AreThresholds};
ghost use Rattle.nest_client.specs.Generator.{drawn_records};
ghost use Rattle.nest_client.specs.Stream.{table_frames, table2_frames};
ghost use Rattle.client_table.specs.Table.{table_of, table2_of};
ghost use Rattle.star_lists.specs.Elements.{EquallyOften};
ghost use Rattle.layer_walk.specs.Laws.{TellAlike};
ghost use Rattle.layer_walk.specs.Reveal.{outer_rows, reveal_of};
ghost use Rattle.reveal_report.specs.RevealText.{open_line, level_lines, aux_line, last_line, text_of, summary_of};
ghost use Rattle.table_law.specs.Reveals.{IsClean};
ghost use Rattle.epoch_walk.specs.Epochs.{epochs_told};
ghost use Rattle.star_vectors.specs.Comparison.{first_differing};
ghost use Rattle.star_vectors.specs.Vectors.{vectors};
ghost use Rattle.book_file.specs.Book.{Book};
ghost use Rattle.book_file.specs.BookOf.{book_of};
ghost use Rattle.book_file.specs.Spelling.{spelling};
ghost use Rattle.book_merge.specs.Machines.{FitOneBook, records_of_all};
ghost use Rattle.book_merge.specs.Merging.{merged};
ghost use Rattle.book_merge.specs.Records.{records_of};
ghost use Rattle.book_merge.specs.declared.fault.MergeFault.{MergeFault};
ghost use Rattle.command_words.specs.declared.command.Command.{Command};
ghost use Rattle.command_words.specs.declared.command.Command.TheVariants.{Check, Reveal, Make, Gen, SelfTest, Expect, Book as BookCommand, Merge, OpenBook, Certify, Audit, Epochs};
ghost use Rattle.star_tool.specs.Commands.{refusal_of, output_of};
ghost use Rattle.star_tool.specs.Status.{fault_status, line_of};
ghost use Rattle.star_tool.specs.AuditText.{audit_text_of};
ghost use Rattle.star_tool.specs.CheckText.{check_text_of};
ghost use Rattle.star_tool.specs.ExpectText.{expect_line};
ghost use Rattle.star_tool.specs.SelfTestText.{ok_lines, ok_count_line};
ghost use Rattle.star_tool.specs.Verbs.Expect.{SaysClear};
ghost use Rattle.cert_audit.specs.Certificate.{InRange, cert_spelling};
ghost use Rattle.cert_audit.specs.declared.cert.Cert.{Cert};
ghost use Rattle.cert_audit.specs.declared.kind.CertKind.{CertKind};
ghost use Rattle.open_cert.specs.Certs.{IsCertOf, certs_list};
ghost use Rattle.star_tool.specs.Verbs.Audit.{HasBadCert, AreCerts};
ghost use Rattle.star_tool.specs.EpochsText.{epochs_text_of};
ghost use Rattle.star_tool.specs.Verbs.Make.{HasTooMuch, HasBadCell, IsTableText};
ghost use Rattle.star_tool.specs.declared.status.Status.{Status};
ghost use Rattle.star_tool.specs.declared.verbs.audit.TheConstants.{MAX_CERTS_BYTES};
ghost use Rattle.star_tool.specs.declared.verbs.make.TheConstants.{MAX_TABLE_BYTES};

/// `check` refuses exactly the streams with a byte behind the last record that is read. Its output
/// is the text of the records.
#[tactic(auto, using(crate::proofs::StreamLemmas::too_many_means, crate::proofs::StreamLemmas::too_many_only))]
pub fn check_tells()
    ensures too_many { (bytes : List ℕ) → AreBytes bytes →
        (refusal_of Check bytes ≡ Some Status.TooMany) ↔ HasMoreThan MAX_RECORDS bytes }
    ensures only { (bytes : List ℕ) (status : Status) →
        refusal_of Check bytes ≡ Some status → status ≡ Status.TooMany }
    ensures text { (bytes seed : List ℕ) →
        output_of Check bytes seed ≡ check_text_of (stream_records bytes) }
{}

/// `reveal` refuses exactly the streams that `check` refuses. Its output is the text of what the
/// records tell for the epoch, whatever the number of workers.
#[tactic(auto, using(crate::proofs::StreamLemmas::too_many_means, crate::proofs::StreamLemmas::too_many_only))]
pub fn reveal_tells()
    ensures too_many { (epoch workers : ℕ) (bytes : List ℕ) → AreBytes bytes →
        (refusal_of (Reveal epoch workers) bytes ≡ Some Status.TooMany)
        ↔ HasMoreThan MAX_RECORDS bytes }
    ensures only { (epoch workers : ℕ) (bytes : List ℕ) (status : Status) →
        refusal_of (Reveal epoch workers) bytes ≡ Some status → status ≡ Status.TooMany }
    ensures text { (epoch workers : ℕ) (bytes seed : List ℕ) →
        output_of (Reveal epoch workers) bytes seed
        ≡ text_of (reveal_of epoch (stream_records bytes)) }
{}

/// `gen` refuses nothing. Its output is the summary of what the records of a stream for trials tell
/// for their epoch, whatever the number of workers.
pub fn gen_tells()
    ensures good { (number reports liars workers : ℕ) (bytes : List ℕ) →
        refusal_of (Gen number reports liars workers) bytes ≡ None }
    ensures text { (number reports liars workers : ℕ) (bytes seed : List ℕ) →
        output_of (Gen number reports liars workers) bytes seed
        ≡ summary_of (reveal_of 1 (drawn_records number reports liars)) }
{}

/// `make` refuses exactly what is too much for a table, and else what has a bad place. Its output
/// is the stream of the reports of the table's rows, by the seed that is given or else by the one
/// that was drawn.
#[tactic(auto, using(crate::proofs::MakeLemmas::too_many_means, crate::proofs::MakeLemmas::bad_means, crate::proofs::MakeLemmas::none_means))]
pub fn make_tells()
    ensures too_many { (epoch : ℕ) (version : Version) (thresholds bytes : List ℕ)
        (given : Option (List ℕ)) →
        (refusal_of (Make epoch version thresholds given) bytes ≡ Some Status.TooMany)
        ↔ HasTooMuch bytes }
    ensures bad { (epoch row column : ℕ) (version : Version) (thresholds bytes : List ℕ)
        (given : Option (List ℕ)) →
        (refusal_of (Make epoch version thresholds given) bytes ≡ Some (Status.BadTable row column))
        ↔ HasBadCell version thresholds bytes row column }
    ensures good { (epoch : ℕ) (version : Version) (thresholds bytes : List ℕ)
        (given : Option (List ℕ)) →
        (refusal_of (Make epoch version thresholds given) bytes ≡ None)
        ↔ IsTableText version thresholds bytes }
    ensures stream { (epoch : ℕ) (thresholds bytes drawn : List ℕ) (given : Option (List ℕ)) →
        output_of (Make epoch One thresholds given) bytes drawn
        ≡ stream_of (table_frames (table_of bytes) thresholds epoch (unwrap_or given drawn)) }
    ensures stream2 { (epoch : ℕ) (thresholds bytes drawn : List ℕ) (given : Option (List ℕ)) →
        output_of (Make epoch Two thresholds given) bytes drawn
        ≡ stream_of (table2_frames (table2_of (length thresholds) bytes) thresholds epoch
        (unwrap_or given drawn)) }
{}

/// `selftest` refuses exactly where a vector differs, and names the first one. Its output is a line
/// for each vector, and their count.
pub fn self_test_tells()
    ensures bad { (number : ℕ) (got wanted bytes : List ℕ) →
        first_differing vectors ≡ Some (record { number = number; got = got; wanted = wanted }) →
        refusal_of SelfTest bytes ≡ Some (Status.BadVector number got wanted) }
    ensures good { (bytes : List ℕ) →
        first_differing vectors ≡ None → refusal_of SelfTest bytes ≡ None }
    ensures text { (bytes seed : List ℕ) →
        output_of SelfTest bytes seed
        ≡ ok_lines (length vectors) ++ ok_count_line (length vectors) }
{}

/// `expect` refuses exactly what `make` refuses in version 1. Where its output says that the table
/// is clear, the stream of `make` with the same options and table reveals what it foretells: the
/// `open` lines of `expect` (`lines`) are those of `reveal` (`reveal`), nothing is refused, and no
/// group is without a line or has a bad value (`alone`). `reveal` never refuses the stream that
/// `make` makes of a table that isn't refused (`kept`).
pub fn expect_foretells()
    ensures refused { (epoch : ℕ) (thresholds seed bytes : List ℕ) →
        refusal_of (Expect epoch thresholds seed) bytes
        ≡ refusal_of (Make epoch One thresholds (Some seed)) bytes }
    ensures lines { (epoch : ℕ) (thresholds seed bytes drawn : List ℕ) → epoch < 2 ^ 32 →
        AreThresholds One thresholds →
        refusal_of (Expect epoch thresholds seed) bytes ≡ None →
        SaysClear (output_of (Expect epoch thresholds seed) bytes drawn) →
        let revealed = reveal_of epoch (stream_records
        (output_of (Make epoch One thresholds (Some seed)) bytes drawn)) in
        output_of (Expect epoch thresholds seed) bytes drawn ≡ flat_map open_line revealed.groups
        ++ expect_line (length revealed.groups) true }
    ensures reveal { (epoch workers : ℕ) (thresholds seed bytes drawn other : List ℕ) →
        epoch < 2 ^ 32 → AreThresholds One thresholds →
        refusal_of (Expect epoch thresholds seed) bytes ≡ None →
        SaysClear (output_of (Expect epoch thresholds seed) bytes drawn) →
        let stream = output_of (Make epoch One thresholds (Some seed)) bytes drawn in
        let revealed = reveal_of epoch (stream_records stream) in
        output_of (Reveal epoch workers) stream other
        ≡ flat_map open_line revealed.groups ++ level_lines revealed.levels
        ++ flat_map aux_line revealed.aux ++ last_line revealed }
    ensures alone { (epoch : ℕ) (thresholds seed bytes drawn : List ℕ) → epoch < 2 ^ 32 →
        AreThresholds One thresholds →
        refusal_of (Expect epoch thresholds seed) bytes ≡ None →
        SaysClear (output_of (Expect epoch thresholds seed) bytes drawn) →
        let revealed = reveal_of epoch (stream_records
        (output_of (Make epoch One thresholds (Some seed)) bytes drawn)) in
        (revealed.refusals ≡ []) × All IsClean revealed.levels }
    ensures kept { (epoch workers : ℕ) (thresholds seed bytes drawn : List ℕ) → epoch < 2 ^ 32 →
        AreThresholds One thresholds →
        refusal_of (Expect epoch thresholds seed) bytes ≡ None →
        let stream = output_of (Make epoch One thresholds (Some seed)) bytes drawn in
        refusal_of (Reveal epoch workers) stream ≡ None }
{}

/// `book` refuses exactly the streams that `check` refuses. Its output is the book of the records.
#[tactic(auto, using(crate::proofs::StreamLemmas::too_many_means, crate::proofs::StreamLemmas::too_many_only))]
pub fn book_tells()
    ensures too_many { (epoch : ℕ) (bytes : List ℕ) → AreBytes bytes →
        (refusal_of (BookCommand epoch) bytes ≡ Some Status.TooMany)
        ↔ HasMoreThan MAX_RECORDS bytes }
    ensures only { (epoch : ℕ) (bytes : List ℕ) (status : Status) →
        refusal_of (BookCommand epoch) bytes ≡ Some status → status ≡ Status.TooMany }
    ensures bytes { (epoch : ℕ) (bytes seed : List ℕ) →
        output_of (BookCommand epoch) bytes seed ≡ spelling (book_of epoch (stream_records bytes)) }
{}

/// `merge` refuses what has no sum of books, and says why; else its output is the sum.
pub fn merge_tells()
    ensures fault { (epoch : ℕ) (bytes : List ℕ) (fault : MergeFault) →
        merged epoch bytes ≡ Err fault →
        refusal_of (Merge epoch) bytes ≡ Some (fault_status fault) }
    ensures good { (epoch : ℕ) (bytes : List ℕ) (sum : Book) → merged epoch bytes ≡ Ok sum →
        refusal_of (Merge epoch) bytes ≡ None }
    ensures sum { (epoch : ℕ) (bytes seed : List ℕ) (sum : Book) → merged epoch bytes ≡ Ok sum →
        output_of (Merge epoch) bytes seed ≡ spelling sum }
{}

/// `openbook` refuses what `merge` refuses; else its output is the text of what the records of the
/// sum tell, whatever the number of workers.
pub fn open_book_tells()
    ensures refused { (epoch workers : ℕ) (bytes : List ℕ) →
        refusal_of (OpenBook epoch workers) bytes ≡ refusal_of (Merge epoch) bytes }
    ensures text { (epoch workers : ℕ) (bytes seed : List ℕ) (sum : Book) →
        merged epoch bytes ≡ Ok sum →
        output_of (OpenBook epoch workers) bytes seed ≡ text_of (reveal_of epoch (records_of sum)) }
{}

/// Several machines, each with a stream of its own, of together no more records than a book may
/// count: `book` refuses none of the streams (`good`), and `merge` of what `book` writes for each,
/// joined, writes the book of all of their records (`merged`). `openbook` of the same writes what
/// the records of that book tell, which has the groups, levels and rows of what all of their
/// records tell (`opened`). Both write the same however the records are spread over machines and in
/// whatever order they come (`order`), as where the machines come in another order (`turned`).
pub fn machines_agree()
    ensures good { (epoch : ℕ) (streams : List (List ℕ)) → All AreBytes streams →
        FitOneBook epoch (map stream_records streams) →
        All (λ bytes. refusal_of (BookCommand epoch) bytes ≡ None) streams }
    ensures merged { (epoch : ℕ) (streams : List (List ℕ)) (seed : List ℕ) →
        FitOneBook epoch (map stream_records streams) →
        let books = flat_map (λ bytes. output_of (BookCommand epoch) bytes seed) streams in
        (refusal_of (Merge epoch) books ≡ None) × (output_of (Merge epoch) books seed
        ≡ spelling (book_of epoch (records_of_all (map stream_records streams)))) }
    ensures opened { (epoch workers : ℕ) (streams : List (List ℕ)) (seed : List ℕ) →
        FitOneBook epoch (map stream_records streams) →
        let books = flat_map (λ bytes. output_of (BookCommand epoch) bytes seed) streams in
        let records = records_of_all (map stream_records streams) in
        let told = reveal_of epoch (records_of (book_of epoch records)) in
        (refusal_of (OpenBook epoch workers) books ≡ None)
        × (output_of (OpenBook epoch workers) books seed ≡ text_of told)
        × TellAlike told (reveal_of epoch records) }
    ensures order { (epoch workers : ℕ) (streams others : List (List ℕ)) (seed : List ℕ) →
        FitOneBook epoch (map stream_records streams) →
        FitOneBook epoch (map stream_records others) →
        EquallyOften (records_of_all (map stream_records streams))
        (records_of_all (map stream_records others)) →
        let books = flat_map (λ bytes. output_of (BookCommand epoch) bytes seed) streams in
        let other = flat_map (λ bytes. output_of (BookCommand epoch) bytes seed) others in
        (output_of (Merge epoch) books seed ≡ output_of (Merge epoch) other seed)
        × (output_of (OpenBook epoch workers) books seed
        ≡ output_of (OpenBook epoch workers) other seed) }
    ensures turned { (epoch : ℕ) (streams others : List (List ℕ)) → IsPermutation streams others →
        FitOneBook epoch (map stream_records streams) →
        FitOneBook epoch (map stream_records others)
        × EquallyOften (records_of_all (map stream_records streams))
        (records_of_all (map stream_records others)) }
{}

/// `certify` refuses exactly the streams that `check` refuses. Its output is the certificates of
/// what the records open for the epoch, one after the other: one for each group that `reveal`
/// opens, in the order of its groups, and an audit says Yes to each (`complete`).
#[tactic(auto, using(crate::proofs::StreamLemmas::too_many_means, crate::proofs::StreamLemmas::too_many_only))]
pub fn certify_tells()
    ensures too_many { (epoch : ℕ) (bytes : List ℕ) → AreBytes bytes →
        (refusal_of (Certify epoch) bytes ≡ Some Status.TooMany) ↔ HasMoreThan MAX_RECORDS bytes }
    ensures only { (epoch : ℕ) (bytes : List ℕ) (status : Status) →
        refusal_of (Certify epoch) bytes ≡ Some status → status ≡ Status.TooMany }
    ensures certs { (epoch : ℕ) (bytes seed : List ℕ) →
        output_of (Certify epoch) bytes seed
        ≡ flat_map cert_spelling (certs_list epoch (stream_records bytes)) }
    ensures complete { (epoch : ℕ) (bytes : List ℕ) → AreBytes bytes →
        let records = stream_records bytes in
        AllZip (IsCertOf epoch (outer_rows epoch records)) (reveal_of epoch records).groups
        (certs_list epoch records) }
{}

/// `audit` refuses exactly too many bytes, and else those that go on with something else behind
/// some whole certificates. Of certificates one after the other its output has a line for the
/// verdict of each.
#[tactic(auto, using(crate::proofs::AuditLaws::too_many_means, crate::proofs::AuditLaws::none_means))]
pub fn audit_tells()
    ensures too_many { (bytes : List ℕ) →
        (refusal_of Audit bytes ≡ Some Status.TooMany) ↔ (MAX_CERTS_BYTES < length bytes) }
    ensures bad { (bytes : List ℕ) (cert : ℕ) (kind : CertKind) (at : ℕ) → AreBytes bytes →
        (refusal_of Audit bytes ≡ Some (Status.BadCert cert kind at))
        ↔ HasBadCert bytes cert kind at }
    ensures good { (bytes : List ℕ) → AreBytes bytes →
        (refusal_of Audit bytes ≡ None) ↔ AreCerts bytes }
    ensures text { (certs : List Cert) (bytes seed : List ℕ) → All InRange certs →
        bytes ≡ flat_map cert_spelling certs → output_of Audit bytes seed ≡ audit_text_of certs }
{}

/// `epochs` refuses exactly the streams that `check` refuses. Its output is the text of what the
/// records tell for each of their epochs, whatever the number of workers.
#[tactic(auto, using(crate::proofs::StreamLemmas::too_many_means, crate::proofs::StreamLemmas::too_many_only))]
pub fn epochs_tell()
    ensures too_many { (workers : ℕ) (bytes : List ℕ) → AreBytes bytes →
        (refusal_of (Epochs workers) bytes ≡ Some Status.TooMany) ↔ HasMoreThan MAX_RECORDS bytes }
    ensures only { (workers : ℕ) (bytes : List ℕ) (status : Status) →
        refusal_of (Epochs workers) bytes ≡ Some status → status ≡ Status.TooMany }
    ensures text { (workers : ℕ) (bytes seed : List ℕ) →
        output_of (Epochs workers) bytes seed
        ≡ epochs_text_of (epochs_told (stream_records bytes)) }
{}

/// The line of a faulty command line, in plain text.
pub fn usage_line()
    ensures { line_of Status.Usage ≡ codes "usage: star_tool check | reveal --epoch E [--workers W]"
        ++ codes " | make --epoch E --thresholds K,.. [--seed HEX] [--version V]"
        ++ codes " | gen --number N --reports R --liars L [--workers W] | selftest"
        ++ codes " | expect --epoch E --thresholds K,.. --seed HEX | book --epoch E"
        ++ codes " | merge --epoch E | openbook --epoch E [--workers W] | certify --epoch E"
        ++ codes " | audit | epochs [--workers W]\n" }
{}

/// The limits in plain numbers.
pub fn limits()
    ensures table { MAX_TABLE_BYTES ≡ 134217728 }
    ensures certs { MAX_CERTS_BYTES ≡ 536870912 }
{}
