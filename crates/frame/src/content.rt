// What a sender puts into a frame, and the frame that it makes.
ghost use Rattle.std.specs.Prelude.{◌≡◌, ◌-◌, ◌≤◌};
ghost use Rattle.frame.specs.Filling.{filled, filled_length};
ghost use Rattle.frame.specs.Frames.{frame_bit, padding_bit, sent_bit};

use crate::mode::{Justification, Mode};
use crate::padding::{Padding, padding_at};
use crate::place::{Role, role_at};

/// How long a buffer has to be for every frame.
pub const LONGEST: usize = 2561;

/// The frame alignment pattern, fourteen bits.
pub const PATTERN: u16 = 0b11111001101010;

/// What differs from frame to frame. A word holds the ten bits of a slot: status, envelope alignment and octet.
// The words are an array, since the core allocates nothing.
#[derive(Clone, Copy, Debug, PartialEq, Eq)]
pub struct Content {
    pub blocked: bool,
    pub check: u16,
    pub justification: Justification,
    pub words: [u16; 240],
}

// Bit `index`, counted from the first sent, of a word of so many bits.
fn sent_bit<const BITS: u16>(word: u16, index: u16) -> u8
    requires { BITS ≤ 16 }
    ensures { result ≡ sent_bit BITS word index }
{
    let shift = BITS.saturating_sub(1).saturating_sub(index);
    ((word >> shift) % 2) as u8
}

/// Bit `index`, 0 to 13, of the frame alignment pattern.
pub fn pattern_bit(index: u8) -> u8
    ensures { result ≡ sent_bit 14 0b11111001101010 index }
{
    sent_bit::<14>(PATTERN, u16::from(index))
}

/// Bit `index`, 0 or 1, of the number of a subframe 1 to 4 less one.
pub fn number_bit(subframe: u8, index: u8) -> u8
    ensures { result ≡ sent_bit 2 (subframe - 1) index }
{
    sent_bit::<2>(u16::from(subframe).saturating_sub(1), u16::from(index))
}

impl Content {
    fn padding_bit(&self, subframe: u8, padding: Padding) -> u8
        ensures { result ≡ padding_bit self.now subframe padding }
    {
        match padding {
            Padding::Alarm => u8::from(!self.blocked),
            Padding::One => 1,
            Padding::Check(index) => sent_bit::<16>(self.check, index),
            Padding::Pattern(index) => pattern_bit(index),
            Padding::Number(index) => number_bit(subframe, index),
            Padding::Service(index) => sent_bit::<3>(
                u16::from(self.justification.service_word()),
                u16::from(index),
            ),
            Padding::Zero => 0,
        }
    }

    /// The bit at a place.
    #[tactic(auto, unfolding(crate::specs::Frames::frame_bit))]
    pub fn bit_at(&self, mode: Mode, place: u16) -> u8
        ensures { result ≡ frame_bit mode self.now place }
    {
        match role_at(place) {
            Role::Padding { subframe, index } => self.padding_bit(
                subframe,
                padding_at(mode, subframe, index),
            ),
            Role::Payload { slot, bit } => sent_bit::<10>(
                self.words[usize::from(slot)],
                u16::from(bit),
            ),
            Role::Added => 0,
        }
    }

    /// Writes the frame to the front of the buffer and answers its length; a buffer that could be too short for some
    /// frame is left.
    pub fn fill(&self, mode: Mode, buffer: &mut [u8]) -> Option<usize>
        ensures length { result ≡ filled_length self.now buffer.old }
        ensures buffer { buffer.new ≡ filled mode self.now buffer.old }
    {
        // A guard: by then and ? the test would stand in a closure.
        if buffer.len() < LONGEST {
            return None;
        }
        let length = self.justification.frame_length();
        for (place, bit) in buffer[..length].iter_mut().enumerate() {
            *bit = self.bit_at(mode, place as u16);
        }
        Some(length)
    }
}
