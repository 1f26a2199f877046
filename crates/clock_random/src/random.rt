//! Random bytes by ChaCha20.
ghost use Rattle.std.specs.Prelude.{◌≡◌, length, IfOk};
ghost use Rattle.clock_random.specs.Random.{random_bytes};

use lists::Bytes;
use rand_chacha::ChaCha20Rng;
use rand_core::{Rng, SeedableRng};
use std::alloc::{AllocError, Global};

/// Fills a buffer with the random bytes of a key and a stream from a place on, which counts words of 4 bytes.
pub fn next_words(key: &[u8; 32], stream: u32, place: u64, out: &mut [u8])
    ensures { out.new ≡ random_bytes key.now stream place (length out.old) }
{
    let mut rng = ChaCha20Rng::from_seed(*key);
    rng.set_stream(u64::from(stream));
    rng.set_word_pos(u128::from(place));
    rng.fill_bytes(out);
}

/// So many random bytes of a key and a stream from a place on, which counts words of 4 bytes.
pub fn random_bytes(
    alloc: Global,
    key: &[u8; 32],
    stream: u32,
    place: u64,
    count: usize,
) -> Result<Bytes, AllocError>
    ensures { IfOk result (λ bytes. bytes ≡ random_bytes key.now stream place count) }
{
    let mut bytes = vec![in alloc; 0; count]?;
    next_words(key, stream, place, &mut bytes);
    Ok(Bytes::from_vec(bytes))
}

/// The 64 bytes that a program gets as it starts.
pub fn canary(key: &[u8; 32], stream: u32, place: u64) -> [u8; 64]
    ensures { result ≡ random_bytes key.now stream place 64 }
{
    let mut bytes = [0; 64];
    next_words(key, stream, place, &mut bytes);
    bytes
}
