//! Reading fields.

ghost use Rattle.std.specs.Prelude.{◌≡◌, ℕ, List, drop, OnErr, IsErrOf};
ghost use Rattle.std.specs.Int.{w16, w32};
ghost use Rattle.lks_field.specs.Reading.{Reads, ReadsBy, byte_at, given_at, kind_at, bytes_at, hash_at, number_at};
ghost use Rattle.lks_field.specs.Reading.{upto_at, end_of};

use crate::fault::FieldFault;
use std::marker::Model;

/// What is left of some bytes. Each getter takes its field from the front.
#[derive(Drop)]
pub struct Fields<'a> {
    bytes: &'a [u8],
}

impl<'a> Model for Fields<'a> {
    ghost Value = { List ℕ };

    ghost view = { λ f. f.bytes.now };
}

impl<'a> Fields<'a> {
    pub fn new(bytes: &'a [u8]) -> Fields<'a>
        ensures { result ≡ bytes.now }
    {
        Fields { bytes }
    }

    pub fn get_u8(&mut self) -> Result<u8, FieldFault>
        ensures read { Reads result self.new (byte_at self.old) }
        ensures err { OnErr result (self.new ≡ self.old) }
    {
        let [byte, rest @ ..] = self.bytes else {
            return Err(FieldFault::Short);
        };
        self.bytes = rest;
        Ok(*byte)
    }

    /// A byte of at most `most`. One above that is taken all the same.
    #[tactic(auto, unfolding(crate::specs::Reading::upto_at))]
    pub fn get_u8_upto(&mut self, most: u8) -> Result<u8, FieldFault>
        ensures read { Reads result self.new (upto_at most byte_at self.old) }
        ensures short { IsErrOf result FieldFault.Short → self.new ≡ self.old }
        ensures value { IsErrOf result FieldFault.Value → self.new ≡ drop 1 self.old }
    {
        let byte = self.get_u8()?;
        if byte > most {
            return Err(FieldFault::Value);
        }
        Ok(byte)
    }

    /// The byte `given`. Another one is taken all the same.
    #[tactic(auto, unfolding(crate::specs::Reading::given_at))]
    pub fn get_given(&mut self, given: u8) -> Result<(), FieldFault>
        ensures read { Reads result self.new (given_at given self.old) }
        ensures short { IsErrOf result FieldFault.Short → self.new ≡ self.old }
        ensures value { IsErrOf result FieldFault.Value → self.new ≡ drop 1 self.old }
    {
        if self.get_u8()? != given {
            return Err(FieldFault::Value);
        }
        Ok(())
    }

    /// The byte of the second kind of hash; the first has none. Another byte is taken all the same.
    #[tactic(auto, unfolding(crate::specs::Reading::kind_at))]
    pub fn get_kind(&mut self, second: bool) -> Result<(), FieldFault>
        ensures read { Reads result self.new (kind_at second self.old) }
        ensures short { IsErrOf result FieldFault.Short → self.new ≡ self.old }
        ensures value { IsErrOf result FieldFault.Value → self.new ≡ drop 1 self.old }
    {
        if second { self.get_given(2) } else { Ok(()) }
    }

    /// A number of two bytes, the higher one first.
    pub fn get_be16(&mut self) -> Result<u16, FieldFault>
        ensures read { Reads result self.new (number_at w16 self.old) }
        ensures err { OnErr result (self.new ≡ self.old) }
    {
        if self.bytes.len() < 2 {
            return Err(FieldFault::Short);
        }
        let (front, rest) = self.bytes.split_at(2);
        self.bytes = rest;
        Ok(u16::from_be_bytes([front[0], front[1]]))
    }

    /// A number of four bytes, the highest one first.
    pub fn get_be32(&mut self) -> Result<u32, FieldFault>
        ensures read { Reads result self.new (number_at w32 self.old) }
        ensures err { OnErr result (self.new ≡ self.old) }
    {
        if self.bytes.len() < 4 {
            return Err(FieldFault::Short);
        }
        let (front, rest) = self.bytes.split_at(4);
        self.bytes = rest;
        Ok(u32::from_be_bytes([front[0], front[1], front[2], front[3]]))
    }

    /// The next `n` bytes.
    pub fn get_bytes(&mut self, n: usize) -> Result<&'a [u8], FieldFault>
        ensures read { ReadsBy (λ x. x.now) result self.new (bytes_at n self.old) }
        ensures err { OnErr result (self.new ≡ self.old) }
    {
        if self.bytes.len() < n {
            return Err(FieldFault::Short);
        }
        let (front, rest) = self.bytes.split_at(n);
        self.bytes = rest;
        Ok(front)
    }

    /// The next 32 bytes, as those of a hash or a nonce.
    #[tactic(auto, unfolding(crate::specs::Reading::hash_at))]
    pub fn get_hash(&mut self) -> Result<[u8; 32], FieldFault>
        ensures read { Reads result self.new (hash_at self.old) }
        ensures err { OnErr result (self.new ≡ self.old) }
    {
        if self.bytes.len() < 32 {
            return Err(FieldFault::Short);
        }
        let (front, rest) = self.bytes.split_at(32);
        let mut hash = [0; 32];
        hash.copy_from_slice(front);
        self.bytes = rest;
        Ok(hash)
    }

    /// A number of two bytes, at most `most`. A number above that is taken all the same.
    #[tactic(auto, unfolding(crate::specs::Reading::upto_at))]
    pub fn get_upto(&mut self, most: u16) -> Result<u16, FieldFault>
        ensures read { Reads result self.new (upto_at most (number_at w16) self.old) }
        ensures short { IsErrOf result FieldFault.Short → self.new ≡ self.old }
        ensures value { IsErrOf result FieldFault.Value → self.new ≡ drop 2 self.old }
    {
        let number = self.get_be16()?;
        if number > most {
            return Err(FieldFault::Value);
        }
        Ok(number)
    }

    /// Whether all bytes were taken.
    pub fn finish(&self) -> Result<(), FieldFault>
        ensures { result ≡ end_of self.now }
    {
        match self.bytes {
            [] => Ok(()),
            [_, ..] => Err(FieldFault::Long),
        }
    }
}
