//! Sequences that contracts see as lists, and the contents of an AU.

ghost use Rattle.std.specs.Prelude.{◌≡◌, ◌==◌, ◌<◌, ℕ, List, Some, length, slice_get};
ghost use Rattle.std.specs.Cmp.Lexicographic.{pointwise};
ghost use Rattle.std.proofs.Common.{rules};
ghost use Rattle.std.specs.Cmp.Rules.{comparing};
ghost use Rattle.lks_base.specs.Counted.{first_blocks};

use std::alloc::AllocError;
use std::marker::Model;

/// A growable sequence: a `Vec` of which contracts see the items alone.
#[derive(Debug, Drop)]
pub struct Seq<T> {
    items: Vec<T>,
}

pub type Bytes = Seq<u8>;

/// Numbers of peers.
pub type Ids = Seq<u16>;

/// Hashes of 32 bytes.
pub type Hashes = Seq<[u8; 32]>;

/// The blocks of an AU, in order.
pub type Blocks = Seq<Bytes>;

impl<T> Model for Seq<T> {
    ghost Value = { List T };

    ghost view = { λ a. a.items.items };
}

impl<T> Seq<T> {
    pub fn from_vec(items: Vec<T>) -> Self
        ensures { result ≡ items.items }
    {
        Seq { items }
    }

    pub fn into_vec(self) -> Vec<T>
        ensures { result.items ≡ self }
    {
        let Seq { items } = self;
        items
    }

    pub fn as_slice(&self) -> &[T]
        ensures { result.now ≡ self.now }
    {
        self.items.as_slice()
    }
}

impl Clone for Seq<u8> {
    ghost is_clone = { λ a b. b ≡ a };

    fn clone(&self) -> Result<Self, AllocError> {
        let items = self.items.clone()?;
        Ok(Seq { items })
    }
}

impl Clone for Seq<u16> {
    ghost is_clone = { λ a b. b ≡ a };

    fn clone(&self) -> Result<Self, AllocError> {
        let items = self.items.clone()?;
        Ok(Seq { items })
    }
}

impl Clone for Seq<[u8; 32]> {
    ghost is_clone = { λ a b. b ≡ a };

    fn clone(&self) -> Result<Self, AllocError> {
        let items = self.items.clone()?;
        Ok(Seq { items })
    }
}

impl Clone for Seq<Seq<u8>> {
    ghost is_clone = { λ a b. b ≡ a };

    fn clone(&self) -> Result<Self, AllocError> {
        let items = self.items.clone()?;
        Ok(Seq { items })
    }
}

/// The blocks of an AU as they stand at some place.
pub trait Contents {
    ghost blocks: { Self → List (List ℕ) };

    fn count(&self) -> u16
        ensures { result ≡ length (blocks self.now) };

    fn block(&self, b: u16) -> &[u8]
        requires { b < length (blocks self.now) }
        ensures { slice_get (blocks self.now) b ≡ Some result.now };
}

/// An AU has at most 65,535 blocks: these are the first ones.
impl Contents for Seq<Seq<u8>> {
    ghost blocks = { first_blocks };

    fn count(&self) -> u16 {
        self.as_slice().len().min(u16::MAX as usize) as u16
    }

    fn block(&self, b: u16) -> &[u8] {
        self.items[b as usize].as_slice()
    }
}
