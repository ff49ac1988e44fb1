//! Where deposits stand in the pool, by which their versions are named.

ghost use Rattle.std.specs.Prelude.{◌≡◌, ◌==◌, find};
ghost use Rattle.std.specs.Option.{option_copied};
ghost use Rattle.lks_versions.specs.Places as places_of;

use crate::versions::PinTag;
use lks_base::AuId;

/// Where the deposit of an AU stands in the pool: the index of its first block, which tells it from the same blocks
/// deposited anew.
#[derive(Clone, Copy, Debug, PartialEq, Eq)]
pub struct Place {
    pub au: AuId,
    pub first: u64,
}

fn find_place(places: &[Place], au: AuId) -> Option<&Place>
    ensures { option_copied result ≡ find (λ p. p.au == au) places.now }
{
    places.iter().find(|p| p.au == au)
}

/// The name of a version of an AU, whose deposit stands where these say, or at 0.
pub fn tag_at(places: &[Place], au: AuId, version: u32) -> PinTag
    ensures { result ≡ places_of.tag_at au version places.now }
{
    let first = match find_place(places, au) {
        Some(place) => place.first,
        None => 0,
    };
    PinTag { first, version }
}
