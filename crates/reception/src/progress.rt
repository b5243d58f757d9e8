// A frame that is being received: what each bit does to it, and what it shows.
ghost use Rattle.std.specs.Prelude.{◌≡◌};
ghost use Rattle.frame.specs.Paddings.{padding};
ghost use Rattle.frame.specs.declared.padding.Padding.TheVariants.{Number};
ghost use Rattle.reception.specs.Checks.{checked_on, checking, expected_after, is_wrong};
ghost use Rattle.reception.specs.Words.{justification_by};
ghost use Rattle.reception.specs.Progresses.{filled, from, heard_in, joined, moved_on, padded, placed, seen, word_in};

use crate::register::shift;
use crate::state::{Checking, Progress, Service};
use frame::check::divide_on;
use frame::content::{number_bit, pattern_bit};
use frame::padding::padding_at;
use frame::{Justification, Mode, Padding};

/// What a padding bit shows, where it shows something.
#[derive(Clone, Copy, Debug, PartialEq, Eq)]
pub enum Heard {
    /// the far alarm bit
    Alarm,
    /// a pattern and the subframe's number, right as a whole
    RightPattern,
    /// a pattern and the subframe's number, of which some bit is wrong
    WrongPattern,
    /// a check that is not the remainder of the frame before
    WrongCheck,
    /// the justification that the words of the frame tell; they tell none where they dispute it
    Words(Option<Justification>),
}

impl Checking {
    fn new(whole: bool, expected: Option<u16>) -> Checking
        ensures { result ≡ checking whole expected }
    {
        Checking {
            received: 0,
            remainder: 0,
            whole,
            expected,
        }
    }

    // Takes bit `index`, 0 to 15, of the check; answers whether all of it is there and is wrong.
    fn hear(&mut self, index: u16, bit: u8) -> bool
        ensures wrong { result ≡ is_wrong self.old index bit }
        ensures left { self.new ≡ checked_on self.old bit }
    {
        let received = shift::<16>(self.received, bit);
        self.received = received;
        index == 15 && self.expected.is_some_and(|expected| received != expected)
    }

    // What the check bits of the next frame should be.
    fn next(&self, mode: Mode) -> Option<u16>
        ensures { result ≡ expected_after mode self.now }
    {
        match mode {
            Mode::Synchronous => self.whole.then_some(self.remainder),
            Mode::Justified => None,
        }
    }
}

// The mode is the bearer's, and handed in: a copy that each frame kept could differ from it.
impl Progress {
    // From a place on, with the check so far.
    fn from_place(place: u16, check: Checking) -> Progress
        ensures { result ≡ from place check }
    {
        Progress {
            place,
            word: 0,
            right: true,
            service: Service::new(),
            check,
        }
    }

    // Before the first bit of a frame; there was none before it.
    pub(crate) fn placed() -> Progress
        ensures { result ≡ placed }
    {
        Progress::from_place(0, Checking::new(true, None))
    }

    // After P36 of the subframe that has this many before it.
    pub(crate) fn joined(before: u16) -> Progress
        ensures { result ≡ joined before }
    {
        Progress::from_place(640 * (before % 4) + 576, Checking::new(false, None))
    }

    // The justification of the frame, by the words received so far.
    fn justification(&self, mode: Mode) -> Justification
        ensures { result ≡ justification_by mode self.now.service.words }
    {
        match mode {
            Mode::Synchronous => Justification::Unchanged,
            Mode::Justified => self.service.taken(),
        }
    }

    // On to the next place, or to the next frame.
    pub(crate) fn advance(&mut self, mode: Mode, bit: u8)
        ensures { self.new ≡ moved_on mode self.old bit }
    {
        self.check.remainder = divide_on(self.check.remainder, bit);
        // The words are asked only where a frame can end, for the sake of speed.
        if self.place < 2558
            || usize::from(self.place) < self.justification(mode).frame_length() - 1
        {
            self.place += 1;
        } else {
            self.place = 0;
            self.service = Service::new();
            self.check = Checking::new(true, self.check.next(mode));
        }
    }

    // Takes a padding bit, by the two numbers of its `Role::Padding`.
    pub(crate) fn hear_padding(
        &mut self,
        mode: Mode,
        subframe: u8,
        index: u8,
        bit: u8,
    ) -> Option<Heard>
        ensures heard { result ≡ heard_in self.old subframe (padding mode subframe index) bit }
        ensures left { self.new ≡ padded mode self.old subframe (padding mode subframe index) bit }
    {
        let heard = self.see(subframe, padding_at(mode, subframe, index), bit);
        self.advance(mode, bit);
        heard
    }

    // What a padding bit shows and leaves, before the place moves on.
    fn see(&mut self, subframe: u8, padding: Padding, bit: u8) -> Option<Heard>
        ensures heard { result ≡ heard_in self.old subframe padding bit }
        ensures left { self.new ≡ seen self.old subframe padding bit }
    {
        match padding {
            Padding::Alarm => Some(Heard::Alarm),
            Padding::One | Padding::Zero => None,
            Padding::Check(k) => self.check.hear(k, bit).then_some(Heard::WrongCheck),
            Padding::Pattern(j) => {
                self.right = self.right && bit == pattern_bit(j);
                None
            }
            Padding::Number(j) => self.see_number(subframe, j, bit),
            Padding::Service(j) => {
                self.service.hear(subframe, j, bit);
                (subframe == 4 && j == 2).then(|| Heard::Words(self.service.told()))
            }
        }
    }

    // A bit of the subframe's number; the second ends the pattern.
    fn see_number(&mut self, subframe: u8, index: u8, bit: u8) -> Option<Heard>
        ensures heard { result ≡ heard_in self.old subframe (Number index) bit }
        ensures left { self.new ≡ seen self.old subframe (Number index) bit }
    {
        let right = self.right && bit == number_bit(subframe, index);
        let ends = index == 1;
        self.right = ends || right;
        ends.then_some(if right {
            Heard::RightPattern
        } else {
            Heard::WrongPattern
        })
    }

    // Takes bit `index` of a slot, and answers the slot's word where it is complete.
    pub(crate) fn hear_payload(&mut self, mode: Mode, index: u8, bit: u8) -> Option<u16>
        ensures word { result ≡ word_in self.old index bit }
        ensures left { self.new ≡ filled mode self.old index bit }
    {
        let word = shift::<10>(self.word, bit);
        let ends = index == 9;
        self.word = if ends { 0 } else { word };
        self.advance(mode, bit);
        ends.then_some(word)
    }
}
