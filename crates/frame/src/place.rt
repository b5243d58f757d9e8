// Whose the bit at each place of a frame is.
ghost use Rattle.std.specs.Prelude.{◌≡◌};
ghost use Rattle.frame.specs.Places.{OnePlace, OneRole, place_of, role};

/// Subframes are 1 to 4 and their padding bits P1 to P40; slots are 0 to 239 and their bits 0 to 9: status, envelope
/// alignment and the octet, most significant bit first. `Added` is the bit that an added frame has at its end.
#[derive(Clone, Copy, Debug, PartialEq, Eq)]
pub enum Role {
    Padding { subframe: u8, index: u8 },
    Payload { slot: u8, bit: u8 },
    Added,
}

/// The role of a place. A frame ends at place 2560 at the latest.
pub fn role_at(place: u16) -> Role
    ensures value { result ≡ role place }
    ensures one { OneRole place result }
{
    if place >= 2560 {
        Role::Added
    } else if place % 16 == 15 {
        let number = place / 16;
        Role::Padding {
            subframe: (number / 40 + 1) as u8,
            index: (number % 40 + 1) as u8,
        }
    } else {
        let payload = place - place / 16;
        Role::Payload {
            slot: (payload / 10) as u8,
            bit: (payload % 10) as u8,
        }
    }
}

/// The place of a role, where a frame has such a role.
pub fn place_of(role: Role) -> Option<u16>
    ensures value { result ≡ place_of role }
    ensures one { OnePlace role result }
{
    match role {
        Role::Padding {
            subframe: subframe @ 1..=4,
            index: index @ 1..=40,
        } => Some(16 * (40 * (u16::from(subframe) - 1) + (u16::from(index) - 1)) + 15),
        Role::Payload {
            slot: slot @ 0..=239,
            bit: bit @ 0..=9,
        } => {
            let payload = 10 * u16::from(slot) + u16::from(bit);
            Some(payload + payload / 15)
        }
        Role::Added => Some(2560),
        _ => None,
    }
}
