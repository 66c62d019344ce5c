// Where a key occurs first.
ghost use Rattle.std.specs.Prelude.{◌≡◌, Some, None, unwrap_or, if◌then◌else◌, IfOk, OnOk};
ghost use Rattle.std.specs.Option.{option_or};
ghost use Rattle.std.specs.Ordering.{is_eq};
ghost use Rattle.std.specs.BTreeMap.{get};

use star_io::NoMemory;
use std::collections::BTreeMap;

/// The place of the first key that was equal to this one, if `next` is the place of this one.
pub(crate) fn first_place<K: Ord + Drop>(
    places: &mut BTreeMap<K, u32>,
    key: K,
    next: u32,
) -> Result<u32, NoMemory>
    ensures place { IfOk result (λ place. place ≡ unwrap_or (get K.cmp places.old key) next) }
    ensures places { OnOk result ((q : K) →
        get K.cmp places.new q ≡ option_or (get K.cmp places.old q)
        (if is_eq (K.cmp key q) then Some next else None)) }
{
    match places.get(&key).copied() {
        Some(place) => Ok(place),
        None => {
            let _ = places.insert(key, next)?;
            Ok(next)
        }
    }
}
