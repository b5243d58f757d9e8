// The service words of a frame, and the justification that they tell.
ghost use Rattle.std.specs.Prelude.{◌≡◌, unwrap_or};
ghost use Rattle.frame.specs.declared.mode.Justification.TheVariants.{Unchanged};
ghost use Rattle.reception.specs.Words.{are_complete, has_majority, majority, no_words, taken, told, with_bit};

use crate::register::shift;
use crate::state::Service;
use frame::Justification;

impl Service {
    pub(crate) fn new() -> Service
        ensures { result ≡ no_words }
    {
        Service {
            partial: 0,
            words: [None; 4],
        }
    }

    // Takes bit `index`, 0 to 2, of the word of a subframe 1 to 4.
    pub(crate) fn hear(&mut self, subframe: u8, index: u8, bit: u8)
        ensures { self.new ≡ with_bit self.old subframe index bit }
    {
        let word = shift::<3>(u16::from(self.partial), bit) as u8;
        if index == 2 {
            self.words[usize::from(subframe.saturating_sub(1) % 4)] = Some(word);
            self.partial = 0;
        } else {
            self.partial = word;
        }
    }

    // Whether at least three of the four words are this one.
    #[tactic(auto, using(crate::proofs::Counted::majority_counted))]
    fn has_majority(&self, word: u8) -> bool
        ensures { result ≡ has_majority self.now.words word }
    {
        self.words
            .iter()
            .filter(|received| **received == Some(word))
            .count()
            >= 3
    }

    // Whether all four words were received.
    fn is_complete(&self) -> bool
        ensures { result ≡ are_complete self.now.words }
    {
        self.words.iter().all(|received| received.is_some())
    }

    // The justification whose service word at least three of the four words are.
    fn majority(&self) -> Option<Justification>
        ensures { result ≡ majority self.now.words }
    {
        [
            Justification::Deleted,
            Justification::Added,
            Justification::Unchanged,
        ]
        .into_iter()
        .find(|justification| self.has_majority(justification.service_word()))
    }

    // The justification that the frame is taken to have, by the words received so far.
    pub(crate) fn taken(&self) -> Justification
        ensures { result ≡ taken self.now.words }
    {
        self.majority().unwrap_or(Justification::Unchanged)
    }

    // What the words tell: nothing where all four were received, and no service word has a majority of them.
    pub(crate) fn told(&self) -> Option<Justification>
        ensures told { result ≡ told self.now.words }
        ensures taken { unwrap_or result Unchanged ≡ taken self.now.words }
    {
        if self.is_complete() {
            self.majority()
        } else {
            Some(self.taken())
        }
    }
}
