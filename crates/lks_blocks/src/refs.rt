//! Lists of references.

ghost use Rattle.std.specs.Prelude.{◌≡◌, ◌<◌, length, slice_set};

use crate::pool::BlockRef;
use std::alloc::AllocError;
use std::marker::Model;

/// References in order, as the blocks of one version of a copy. Contracts see the list of blocks alone.
#[derive(Drop)]
pub struct Refs {
    items: Vec<BlockRef>,
}

impl Model for Refs {
    ghost use Rattle.std.specs.Prelude.{List};
    ghost use Rattle.lks_blocks.specs.Block.{Block};

    ghost Value = { List Block };

    ghost view = { λ r. r.items.items };
}

impl Refs {
    pub fn from_vec(items: Vec<BlockRef>) -> Refs
        ensures { result ≡ items.items }
    {
        Refs { items }
    }

    pub fn into_vec(self) -> Vec<BlockRef>
        ensures { result.items ≡ self }
    {
        let Refs { items } = self;
        items
    }

    pub fn as_slice(&self) -> &[BlockRef]
        ensures { result.now ≡ self.now }
    {
        self.items.as_slice()
    }

    /// Puts a reference in the place of another.
    pub fn set(&mut self, place: usize, r: BlockRef)
        requires { place < length self.old }
        ensures { self.new ≡ slice_set self.old place r }
    {
        self.items[place] = r;
    }
}

impl Clone for Refs {
    ghost is_clone = { λ a b. b ≡ a };

    fn clone(&self) -> Result<Self, AllocError> {
        let items = self.items.clone()?;
        Ok(Refs { items })
    }
}
