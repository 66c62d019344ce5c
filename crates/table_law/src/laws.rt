//! Laws of tables. Each function does nothing: its clause is a fact about the definitions that the
//! other contracts cite.
ghost use Rattle.std.specs.Prelude.{◌≡◌, ◌↔◌, ◌<◌, ◌^◌, ℕ, List, true};
ghost use Rattle.report_frame.specs.Thresholds.{AreThresholds};
ghost use Rattle.report_frame.specs.declared.version.Version.TheVariants.{One};
ghost use Rattle.layer_walk.specs.Reveal.{reveal_of};
ghost use Rattle.star_io.specs.RecordLists.{stream_of, stream_records};
ghost use Rattle.nest_client.specs.Stream.{table_frames, table_records};
ghost use Rattle.table_law.specs.Prefixes.{Values, prefixes};
ghost use Rattle.table_law.specs.Clear.{Clear, is_clear};
ghost use Rattle.table_law.specs.Reveals.{IsTableOf, RevealsOnly};

/// The stream of a clear table reveals the prefixes of the table, refuses nothing, and leaves no
/// group without a line or with a bad value.
pub fn table_reveals()
    ensures records { (e : ℕ) (seed ks : List ℕ) (table : List Values) → e < 2 ^ 32 →
        AreThresholds One ks → IsTableOf ks table → Clear table ks e seed →
        RevealsOnly (prefixes table ks) (reveal_of e (table_records table ks e seed)) }
    ensures stream { (e : ℕ) (seed ks : List ℕ) (table : List Values) → e < 2 ^ 32 →
        AreThresholds One ks → IsTableOf ks table → Clear table ks e seed →
        RevealsOnly (prefixes table ks)
        (reveal_of e (stream_records (stream_of (table_frames table ks e seed)))) }
{}

/// The test passes exactly for clear tables.
pub fn clear_decides()
    ensures { (e : ℕ) (seed ks : List ℕ) (table : List Values) → (is_clear table ks e seed ≡ true)
        ↔ Clear table ks e seed }
{}
