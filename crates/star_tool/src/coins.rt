// The seed of the reports, given or drawn of the coins.
ghost use Rattle.std.specs.Prelude.{◌≡◌, ◌≤◌, ℕ, List, None, Some, Ok, IfOk, IfErr};
ghost use Rattle.star_tool.specs.Coins.{IsSeed, SeedReason, TakesCoins};
ghost use Rattle.star_tool.specs.Seen.{seen};

use crate::status::Status;
use command_words::SEED_BYTES;
use star_io::{Failed, Source, fill};

/// The seed that was given, or else the next bytes of the coins. No coin is taken where a seed was
/// given.
pub(crate) fn seed_or_coins<C: Source>(
    given: Option<[u8; SEED_BYTES]>,
    coins: &mut C,
) -> Result<[u8; SEED_BYTES], Status>
    ensures seed { IfOk result (IsSeed given (seen C.left C.faults coins.old coins.new)) }
    ensures given { (seed : List ℕ) → given ≡ Some seed → (result ≡ Ok seed)
        × (coins.new ≡ coins.old) }
    ensures reason { IfErr result (SeedReason given (seen C.left C.faults coins.old coins.new)) }
    ensures most { TakesCoins (seen C.left C.faults coins.old coins.new) }
    ensures later { C.faults coins.old ≤ C.faults coins.new }
{
    match given {
        Some(seed) => Ok(seed),
        None => draw_seed(coins),
    }
}

// The next bytes of the coins, as a seed.
fn draw_seed<C: Source>(coins: &mut C) -> Result<[u8; SEED_BYTES], Status>
    ensures seed { IfOk result (IsSeed None (seen C.left C.faults coins.old coins.new)) }
    ensures reason { IfErr result (SeedReason None (seen C.left C.faults coins.old coins.new)) }
    ensures most { TakesCoins (seen C.left C.faults coins.old coins.new) }
    ensures later { C.faults coins.old ≤ C.faults coins.new }
{
    let mut seed = [0; SEED_BYTES];
    match fill(coins, &mut seed) {
        Ok(SEED_BYTES) => Ok(seed),
        Ok(have) => Err(Status::ShortCoins { have: have as u32 }),
        Err(Failed) => Err(Status::ReadFault),
    }
}
