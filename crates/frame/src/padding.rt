// What the padding bits hold.
ghost use Rattle.std.specs.Prelude.{◌≡◌};
ghost use Rattle.frame.specs.Paddings.{padding};

use crate::mode::Mode;

/// What a padding bit holds; bits of a word are counted from 0, the first sent.
#[derive(Clone, Copy, Debug, PartialEq, Eq)]
pub enum Padding {
    /// A: 0 while the sender's own reception is blocked
    Alarm,
    /// B to H and the national bits
    One,
    /// a bit of the check, of which there are sixteen
    Check(u16),
    /// a bit of the frame alignment pattern, of which there are fourteen
    Pattern(u8),
    /// a bit of the subframe's number less one, of which there are two
    Number(u8),
    /// a bit of the service word, of which there are three
    Service(u8),
    Zero,
}

/// What bit P1 to P40 of a subframe 1 to 4 holds.
// The two numbers come from a `Role::Padding`, whose names they keep.
pub fn padding_at(mode: Mode, subframe: u8, index: u8) -> Padding
    ensures { result ≡ padding mode subframe index }
{
    match (index, mode) {
        (0..=1, _) => Padding::Alarm,
        (2..=4 | 9..=20, _) => Padding::One,
        (5..=8, _) => Padding::Check(
            4 * u16::from(subframe).saturating_sub(1) + (u16::from(index) - 5),
        ),
        (21..=34, _) => Padding::Pattern(index - 21),
        (35..=36, _) => Padding::Number(index - 35),
        (_, Mode::Synchronous) => Padding::One,
        (37..=39, Mode::Justified) => Padding::Service(index - 37),
        (_, Mode::Justified) => Padding::Zero,
    }
}
