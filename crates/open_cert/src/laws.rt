//! Laws of certificates and groups. Each function does nothing: its clause is a fact about the
//! definitions that the other contracts cite.
ghost use Rattle.std.specs.Prelude.{◌≡◌, ℕ, List};
ghost use Rattle.std.specs.List.{AllZip};
ghost use Rattle.star_io.specs.declared.record.Record.{Record};
ghost use Rattle.layer_walk.specs.declared.outcome.Outcome.TheVariants.{Opened};
ghost use Rattle.layer_walk.specs.Laws.{AreByteRecords};
ghost use Rattle.layer_walk.specs.Outcomes.{outcome_at};
ghost use Rattle.layer_walk.specs.Reveal.{outer_rows, reveal_of};
ghost use Rattle.layer_walk.specs.Rows.{Row};
ghost use Rattle.cert_audit.specs.declared.cert.Cert.{Cert};
ghost use Rattle.cert_audit.specs.declared.verdict.Verdict.TheVariants.{Yes};
ghost use Rattle.cert_audit.specs.Audit.{verdict_of};
ghost use Rattle.cert_audit.specs.Certificate.{InRange};
ghost use Rattle.open_cert.specs.Certs.{IsCertOf, certs_list};
ghost use Rattle.open_cert.specs.Laws.{SpeaksOf};

/// Where an audit says Yes, every group of the certificate's level, epoch, parent check, head and
/// points is opened to that value by that agreement, whoever made the certificate.
pub fn audited_groups()
    ensures { (cert : Cert) (value : List ℕ) (agree : ℕ) (rows : List Row) (row : Row) →
        InRange cert → verdict_of cert ≡ Yes value agree →
        SpeaksOf cert rows row → outcome_at cert.epoch cert.level rows row ≡ Opened value agree }
{}

/// The certificates of any records for any epoch are one for each group that their reveal opens, in
/// the order of its groups. Each has its group's level, epoch, parent check, head and points left,
/// and an audit says Yes to it, with the group's value and agreement.
pub fn certs_are()
    ensures { (e : ℕ) (records : List Record) → AreByteRecords records →
        AllZip (IsCertOf e (outer_rows e records)) (reveal_of e records).groups
        (certs_list e records) }
{}
