//! The statuses and the limits in plain numbers, as `star_client.h` has them. The function does
//! nothing: its clauses are facts about the definitions that the other contracts cite.
ghost use Rattle.std.specs.Prelude.{◌≡◌};
ghost use Rattle.star_client_c.specs.declared.status.TheConstants.{DONE, BAD_VERSION, BAD_THRESHOLDS, BAD_VALUES, BAD_EXTRA, BAD_SEED, SMALL_BUFFER};
ghost use Rattle.star_client_c.specs.Request.{most_bytes};

/// What each status is as a number, and how long a report of each version is at most.
pub fn limits()
    ensures done { DONE ≡ 0 }
    ensures request { (BAD_VERSION ≡ 1) × (BAD_THRESHOLDS ≡ 2) × (BAD_VALUES ≡ 3)
        × (BAD_EXTRA ≡ 4) }
    ensures making { (BAD_SEED ≡ 5) × (SMALL_BUFFER ≡ 6) }
    ensures most { (most_bytes 1 ≡ 1616) × (most_bytes 2 ≡ 3487) }
{}
