//! The limits of words. The function does nothing: its clauses are the facts.
ghost use Rattle.std.specs.Prelude.{◌≡◌};
ghost use Rattle.recovery_pool.specs.declared.limits.TheConstants.{MAX_WORKERS};
ghost use Rattle.command_words.specs.declared.generate.TheConstants.{MAX_REPORTS, MAX_LIARS};
ghost use Rattle.command_words.specs.declared.numbers.TheConstants.{MAX_DIGITS};
ghost use Rattle.command_words.specs.declared.seed.TheConstants.{SEED_BYTES};
ghost use Rattle.command_words.specs.declared.workers.TheConstants.{DEFAULT_WORKERS};

/// The limits in plain numbers.
pub fn limits()
    ensures digits { MAX_DIGITS ≡ 10 }
    ensures seed { SEED_BYTES ≡ 32 }
    ensures workers { MAX_WORKERS ≡ 64 }
    ensures default_workers { DEFAULT_WORKERS ≡ 4 }
    ensures reports { MAX_REPORTS ≡ 65536 }
    ensures liars { MAX_LIARS ≡ 100 }
{}
