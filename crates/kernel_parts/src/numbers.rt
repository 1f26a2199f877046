//! The numbers of a map, one after another.
ghost use Rattle.std.specs.Prelude.{◌≡◌};
ghost use Rattle.maps.specs.Maps.{least_key};
ghost use Rattle.tree_model.specs.Changes.{is_above};

use maps::NumMap;

/// The least of the map's numbers above `last`, and the least of all with no `last`.
pub fn next_number<V>(map: &NumMap<V>, last: Option<u64>) -> Option<u64>
    ensures { result ≡ least_key (λ n _. is_above last n) map.now }
{
    match last {
        Some(number) => map.first_after(number),
        None => map.first_from(0),
    }
}
