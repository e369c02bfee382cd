//! Who asks.

ghost use Rattle.std.specs.Prelude.{◌≡◌};
ghost use Rattle.session_hub.specs.Parties.{nobody};

use op_read::acdf_filters::Requester;
use op_read::aci_item::Level;

/// A requester of whom nothing is known (RFC 4511 4.2): it has no name, and the lowest level.
pub fn anonymous() -> Requester
    ensures { result ≡ nobody }
{
    Requester {
        name: None,
        level: Level::Anyone,
    }
}
