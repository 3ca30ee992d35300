// A port from plain numbers.
ghost use Rattle.std.specs.Prelude.{◌≡◌};
ghost use Rattle.border.specs.Port.{port_of};

use hardware::{Family, Port};

// The family is 552 or 553. A device above 65535 is none; a lan above 1 and a pause of 0 or above 100 are refused by `begin`.
#[tactic(auto, unfolding(crate::specs::Port::port_of))]
pub fn port_of(family: u32, device: u32, lan: u32, pause: u32) -> Option<Port>
    ensures { result ≡ port_of family device lan pause }
{
    if device > 65535 {
        return None;
    }
    let family = match family {
        552 => Family::X552,
        553 => Family::X553,
        _ => return None,
    };
    Some(Port {
        family,
        device: device as u16,
        lan,
        pause,
    })
}
