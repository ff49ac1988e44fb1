//! Words drawn one after another, and members picked by them.

ghost use Rattle.std.specs.Prelude.{◌≡◌, ◌+◌, ◌^◌, ◌<◌, ◌≤◌, [], ◌∷◌, ◌++◌, length, vec_len, vec_capacity, IfOk, OnOk};
ghost use Rattle.std.specs.Prelude.{OnErr};
ghost use Rattle.lks_draw.specs.Picks.{picked_by, members_taken, words_taken, IsPickOf};
ghost use Rattle.lks_draw.specs.Words.{drawn_from, next_of, words_of, draw_after};

use crate::memory::OutOfMemory;
use rand_chacha::ChaCha20Rng;
use rand_chacha::rand_core::SeedableRng;
use rand_chacha::rand_core::utils::NextWord;
use sha2::{Digest, Sha256};
use std::alloc::Global;
use std::marker::Model;

/// The words of one draw. Contracts see their key, and the place of the next word.
#[derive(Drop)]
pub struct Draws {
    words: ChaCha20Rng,
}

impl Model for Draws {
    ghost use Rattle.std.specs.Prelude.{◌≡◌, ◌<◌, ◌^◌};
    ghost use Rattle.lks_draw.specs.Words.{Drawn};

    ghost Value = { Drawn };

    ghost view = { λ d. record { key = d.words.key; place = d.words.word_pos } };

    ghost invariant = { λ d. (d.words.stream ≡ 0) × (d.words.word_pos < 2 ^ 68) };
}

impl Draws {
    /// The draw of this label and number of the peer with this seed, before its first word.
    #[tactic(auto, unfolding(crate::specs::Words::drawn_from, crate::specs::Words::key_bytes))]
    pub fn new(seed: &[u8; 32], label: u8, number: u32) -> Draws
        ensures { result ≡ drawn_from seed.now label number }
    {
        let mut hasher = Sha256::new();
        hasher.update([label].as_slice());
        hasher.update(seed.as_slice());
        hasher.update(number.to_be_bytes().as_slice());
        Draws {
            words: ChaCha20Rng::from_seed(hasher.finalize()),
        }
    }

    /// A number below `n`: the next word times `n`, shifted right by 32 bits.
    pub fn next(&mut self, n: u32) -> u32
        requires { 1 ≤ n }
        ensures word { result ≡ next_of self.old n }
        ensures below { result < n }
        ensures moved { self.new ≡ draw_after self.old 1 }
    {
        self.next_place(n as usize) as u32
    }

    // A place in a list of this length, drawn as `next` draws a number.
    #[tactic(auto, unfolding(crate::specs::Words::words_of))]
    fn next_place(&mut self, len: usize) -> usize
        requires { 1 ≤ len }
        ensures word { result ≡ next_of self.old len }
        ensures below { result < len }
        ensures moved { self.new ≡ draw_after self.old 1 }
    {
        let word = self.words.next_word();
        ((u128::from(word) * len as u128) >> 32) as usize
    }

    /// At most `n` members of a list: a list of at most `n` is taken whole, in its order and without a word. Else `n`
    /// times the member at the place `next(length)` is taken out, and the rest keeps its order.
    #[tactic(auto, unfolding(crate::specs::Picks::picked_members, crate::specs::Picks::words_taken))]
    pub fn pick(&mut self, alloc: Global, list: &[u16], n: usize) -> Result<Vec<u16>, OutOfMemory>
        ensures picked { IfOk result (λ v. v.items ≡ picked_by self.old list.now n) }
        ensures law { IfOk result (λ v. IsPickOf list.now n v.items) }
        ensures moved { OnOk result (self.new ≡ draw_after self.old (words_taken list.now n)) }
        ensures err { OnErr result (self.new ≡ self.old) }
    {
        let mut rest = list.to_vec(alloc)?;
        if list.len() <= n {
            return Ok(rest);
        }
        let mut members = Vec::with_capacity(alloc, n)?;
        self.take_out(&mut rest, &mut members, n);
        Ok(members)
    }

    // Takes `n` members out of `rest`, and puts them where there is room.
    fn take_out(&mut self, rest: &mut Vec<u16>, members: &mut Vec<u16>, n: usize)
        requires enough { n ≤ vec_len rest.old }
        requires room { vec_len members.old + n ≤ vec_capacity members.old }
        ensures members { members.new.items
            ≡ members.old.items ++ members_taken (words_of self.old.key) self.old.place rest.old.items n }
        ensures moved { self.new ≡ draw_after self.old n }
    {
        for _i in 0..n {
            let at = self.next_place(rest.len());
            put(members, rest.remove(at));
        }
    }
}

// Puts a member where there is room.
fn put(members: &mut Vec<u16>, member: u16)
    requires { vec_len members.old < vec_capacity members.old }
    ensures items { members.new.items ≡ members.old.items ++ member ∷ [] }
    ensures len { vec_len members.new ≡ vec_len members.old + 1 }
    ensures room { vec_capacity members.old ≤ vec_capacity members.new }
{
    match members.push(member) {
        Ok(()) => {}
        Err(_) => unreachable!(),
    }
}
