//! Names in no order.

ghost use Rattle.std.specs.Prelude.{◌≡◌};
ghost use Rattle.chain_layout.specs.Listed.{lesser};

use fs_fields::is_below;
use fs_trees::Name;

/// The lesser of two names that may be there.
pub fn lesser(name: Option<Name>, other: Option<Name>) -> Option<Name>
    ensures { result ≡ lesser name other }
{
    match (name, other) {
        (None, other) => other,
        (Some(name), None) => Some(name),
        (Some(name), Some(other)) => {
            if is_below(other.as_slice(), name.as_slice()) {
                Some(other)
            } else {
                Some(name)
            }
        }
    }
}
