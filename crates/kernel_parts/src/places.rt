//! What a mapping of zeros answers.
ghost use Rattle.std.specs.Prelude.{◌≡◌};
ghost use Rattle.kernel_model.specs.Families.MemoryCalls.{placed};

use abi_types::{Place, Reply};
use right_rules::{refused, success};

/// The reply of a mapping that goes to this place: its address, or why it has none.
pub fn placed(place: Place) -> Reply
    ensures { result ≡ placed place }
{
    match place {
        Place::At(address) => success(address, 0),
        Place::Refused(errno) => refused(errno),
    }
}
