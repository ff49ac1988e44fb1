//! Fields of any length, read into memory: `Value` for a length or a count above its limit, `Short` where bytes are
//! missing. After a fault some of the bytes may be taken.

ghost use Rattle.std.specs.Int.{w16};
ghost use Rattle.lks_field.specs.Reading.{byte_at, hash_at, number_at, upto_at, many_at, sized_at, list_at, is_memory};
ghost use Rattle.lks_field.specs.Reading.{ReadsBut};

use crate::fault::FieldFault;
use crate::reading::Fields;
use std::alloc::Global;

fn many_numbers(alloc: Global, count: u8, fields: &mut Fields<'_>) -> Result<Vec<u16>, FieldFault>
    ensures { ReadsBut is_memory (λ v. v.items) result fields.new (many_at (number_at w16) count fields.old) }
{
    let mut numbers = Vec::new(alloc);
    for _ in 0..count {
        let number = fields.get_be16()?;
        numbers.push(number)?;
    }
    Ok(numbers)
}

fn many_hashes(
    alloc: Global,
    count: u16,
    fields: &mut Fields<'_>,
) -> Result<Vec<[u8; 32]>, FieldFault>
    ensures { ReadsBut is_memory (λ v. v.items) result fields.new (many_at hash_at count fields.old) }
{
    let mut hashes = Vec::new(alloc);
    for _ in 0..count {
        let hash = fields.get_hash()?;
        hashes.push(hash)?;
    }
    Ok(hashes)
}

impl<'a> Fields<'a> {
    /// At most `most` bytes behind their length, a number of two bytes.
    #[tactic(auto, unfolding(crate::specs::Reading::sized_at))]
    pub fn get_sized(&mut self, alloc: Global, most: u16) -> Result<Vec<u8>, FieldFault>
        ensures { ReadsBut is_memory (λ v. v.items) result self.new (sized_at (upto_at most (number_at w16)) self.old) }
    {
        let length = self.get_upto(most)?;
        let bytes = self.get_bytes(length as usize)?;
        Ok(Vec::from_slice(alloc, bytes)?)
    }

    /// At most `most` hashes behind their count, a number of two bytes.
    #[tactic(auto, unfolding(crate::specs::Reading::list_at))]
    pub fn get_hashes(&mut self, alloc: Global, most: u16) -> Result<Vec<[u8; 32]>, FieldFault>
        ensures { ReadsBut is_memory (λ v. v.items) result self.new
            (list_at (upto_at most (number_at w16)) hash_at self.old) }
    {
        let count = self.get_upto(most)?;
        many_hashes(alloc, count, self)
    }

    /// At most `most` numbers of two bytes each, behind their count, a byte.
    #[tactic(auto, unfolding(crate::specs::Reading::list_at))]
    pub fn get_numbers(&mut self, alloc: Global, most: u8) -> Result<Vec<u16>, FieldFault>
        ensures { ReadsBut is_memory (λ v. v.items) result self.new
            (list_at (upto_at most byte_at) (number_at w16) self.old) }
    {
        let count = self.get_u8_upto(most)?;
        many_numbers(alloc, count, self)
    }
}
