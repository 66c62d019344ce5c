// The box of a value, and the value in a box.
ghost use Rattle.std.specs.Prelude.{◌≡◌, ◌≤◌, ◌↔◌, IsSome, IfSome};
ghost use Rattle.report_frame.specs.Versions.{max_threshold};
ghost use Rattle.adss_commit.specs.Derivation.{box_of, Opens, opened_value};

use crate::context::{Context, context_check, context_key, context_tag};
use crate::keys::box_key;
use chacha_stream::xor_stream;
use report_frame::{CHECK_BYTES, Head, MAX_VALUE, Value, Version};
use shamir_limbs::Key;

/// The box of a value, which is as long; the box of a box is the value again.
pub fn box_value(version: Version, key: &Key, value: &Value) -> Value
    ensures { result ≡ box_of version key.now.bytes value.now }
{
    let mut room = [0u8; MAX_VALUE];
    let plain = value.as_slice();
    let (front, _) = room.split_at_mut(plain.len());
    front.copy_from_slice(plain);
    xor_stream(&box_key(version, key), &[0; 12], 0, front);
    Value::of(front).unwrap()
}

/// The value in the head's box, if its context at this place gives back the key, the tag and the
/// check; `None` if one of the three differs.
pub fn open_value(
    key: &Key,
    head: &Head,
    parent: &[u8; CHECK_BYTES],
    epoch: u32,
    level: u8,
) -> Option<Value>
    requires low { 1 ≤ head.now.k }
    requires high { head.now.k ≤ max_threshold head.now.version }
    ensures value { IfSome result (λ v. v ≡ box_of head.now.version key.now.bytes head.now.boxed) }
    ensures found { IsSome result ↔ Opens key.now head.now parent.now epoch level }
    ensures opened { result ≡ opened_value key.now head.now parent.now epoch level }
{
    value_in(key, head, parent, epoch, level)
}

// The same, by the two clauses that say what is compared.
fn value_in(
    key: &Key,
    head: &Head,
    parent: &[u8; CHECK_BYTES],
    epoch: u32,
    level: u8,
) -> Option<Value>
    ensures value { IfSome result (λ v. v ≡ box_of head.now.version key.now.bytes head.now.boxed) }
    ensures found { IsSome result ↔ Opens key.now head.now parent.now epoch level }
{
    let context = Context {
        version: head.version,
        parent: *parent,
        epoch,
        level,
        k: head.k,
        value: box_value(head.version, key, &head.boxed),
    };
    let opens = context_key(&context) == *key
        && context_tag(&context) == head.tag
        && context_check(&context) == head.check;
    if opens { Some(context.value) } else { None }
}
