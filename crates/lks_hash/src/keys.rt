//! The nonce of a poll, and the key of a vote.
ghost use Rattle.std.specs.Prelude.{◌≡◌, ℕ, List, ◌++◌, codes};
ghost use Rattle.std.specs.Int.{w16, w32, to_be_bytes};
ghost use Rattle.lks_hash.specs.Hashes.{key_of, nonce_from};

use sha2::{Digest, Sha256, Sha512_256};

/// The key of `voter`'s vote in poll `number` of `poller`, on an AU of `count` blocks: where its running hash begins.
#[tactic(auto, unfolding(crate::specs::Hashes::key_of))]
pub fn key(
    second: bool,
    poller: u16,
    number: u32,
    nonce: &[u8; 32],
    voter: u16,
    au: u16,
    count: u16,
) -> [u8; 32]
    ensures { result ≡ key_of second poller number nonce.now voter au count }
{
    if second {
        let mut hasher = Sha512_256::new();
        feed_key(&mut hasher, poller, number, nonce, voter, au, count);
        hasher.finalize()
    } else {
        let mut hasher = Sha256::new();
        feed_key(&mut hasher, poller, number, nonce, voter, au, count);
        hasher.finalize()
    }
}

/// The nonce of poll `number` of the peer that draws from `seed`. It is SHA-256 whatever the kind of the poll's hashes.
#[tactic(auto, unfolding(crate::specs::Hashes::nonce_from))]
pub fn nonce_of(seed: &[u8; 32], number: u32) -> [u8; 32]
    ensures { result ≡ nonce_from seed.now number }
{
    let mut hasher = Sha256::new();
    hasher.update(b"nonce".as_slice());
    hasher.update(seed.as_slice());
    hasher.update(number.to_be_bytes().as_slice());
    hasher.finalize()
}

// Adds what a key is the hash of: 52 bytes.
fn feed_key<D: Digest>(
    hasher: &mut D,
    poller: u16,
    number: u32,
    nonce: &[u8; 32],
    voter: u16,
    au: u16,
    count: u16,
)
    ensures { (m : List ℕ) → D.holds hasher.old m → D.holds hasher.new (m ++ codes "LOCKSS/1" ++ to_be_bytes w16 poller
        ++ to_be_bytes w32 number ++ nonce.now ++ to_be_bytes w16 voter ++ to_be_bytes w16 au
        ++ to_be_bytes w16 count) }
{
    hasher.update(b"LOCKSS/1".as_slice());
    hasher.update(poller.to_be_bytes().as_slice());
    hasher.update(number.to_be_bytes().as_slice());
    hasher.update(nonce.as_slice());
    hasher.update(voter.to_be_bytes().as_slice());
    hasher.update(au.to_be_bytes().as_slice());
    hasher.update(count.to_be_bytes().as_slice());
}
