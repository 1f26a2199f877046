//! The numbers of a map in their order.
ghost use Rattle.std.specs.Prelude.{◌≡◌};
ghost use Rattle.tree_model.specs.Changes.{is_above};
ghost use Rattle.maps.specs.Maps.{least_key};

use abi_types::ObjId;
use maps::NumMap;

/// The least of the map's numbers above `after`, and the least of all with no `after`.
pub fn least<V>(map: &NumMap<V>, after: Option<ObjId>) -> Option<u64>
    ensures { result ≡ least_key (λ n _. is_above after n) map.now }
{
    match after {
        Some(id) => map.first_after(id.0),
        None => map.first_from(0),
    }
}
