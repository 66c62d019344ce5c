//! Laws of the keystream. Each function does nothing: its clause is a fact about the definitions
//! that the contract of [`xor_stream`](crate::xor_stream) cites.
//!
//! The proofs are those of `proofs/StreamLaws.antt`, which other proofs can cite.
ghost use Rattle.std.specs.Prelude.{◌≡◌, ◌+◌, ◌*◌, ℕ, List, length, replicate, ◌++◌};
ghost use Rattle.chacha_stream.specs.Keystream.{keystream, xor_bytes};

/// The keystream has as many bytes as are asked for.
#[tactic(auto, using(crate::proofs::StreamLaws::keystream_length))]
pub fn keystream_length()
    ensures { (key nonce : List ℕ) (counter start n : ℕ) →
        length (keystream key nonce counter start n) ≡ n }
{}

/// The exclusive or has as many bytes as the first list.
#[tactic(auto, using(crate::proofs::StreamLaws::same_length))]
pub fn same_length()
    ensures { (bytes stream : List ℕ) → length (xor_bytes bytes stream) ≡ length bytes }
{}

/// Done twice, the exclusive or gives the bytes back.
#[tactic(auto, using(crate::proofs::StreamLaws::twice))]
pub fn twice()
    ensures { (bytes stream : List ℕ) → xor_bytes (xor_bytes bytes stream) stream ≡ bytes }
{}

/// The keystream from a later block is the keystream from further on.
#[tactic(auto, using(crate::proofs::StreamLaws::later_block))]
pub fn later_block()
    ensures { (key nonce : List ℕ) (counter blocks start n : ℕ) →
        keystream key nonce (counter + blocks) start n
        ≡ keystream key nonce counter (64 * blocks + start) n }
{}

/// The keystream, split at any byte.
#[tactic(auto, using(crate::proofs::StreamLaws::split))]
pub fn split()
    ensures { (key nonce : List ℕ) (counter start m n : ℕ) →
        keystream key nonce counter start (m + n) ≡ keystream key nonce counter start m
        ++ keystream key nonce counter (start + m) n }
{}

/// Over zeros the exclusive or is the keystream itself.
#[tactic(auto, using(crate::proofs::StreamLaws::over_zeros))]
pub fn over_zeros()
    ensures { (key nonce : List ℕ) (counter start n : ℕ) →
        xor_bytes (replicate n 0) (keystream key nonce counter start n)
        ≡ keystream key nonce counter start n }
{}
