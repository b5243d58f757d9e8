// The generic queue over a slice that is lent at each call.
#![tactic(auto)]

ghost use Rattle.std.specs.Prelude.{◌≡◌, ℕ, ◌+◌, ◌<◌, ◌≤◌, IsTrue, ◌++◌, length, count_by, nat_eq};
ghost use Rattle.std.specs.List.{slice_get};
ghost use Rattle.ring.specs.Queue.{has_room, oldest};
ghost use Rattle.ring.specs.Held.{place_at, reaches, queue, Fresh, Put, Taken};

mod shape;

pub use shape::Ring;

/// An element that tells a code of 16 bits.
pub trait Coded {
    ghost coded: { Self → ℕ };

    fn code(&self) -> u16
        ensures { result ≡ coded self.now };
}

impl Ring {
    /// An empty ring on the `places` places from `base` on.
    pub fn new(base: usize, places: usize) -> Ring
        ensures { Fresh base places result }
    {
        Ring {
            base,
            places,
            head: 0,
            waiting: 0,
        }
    }

    // Whether the memory reaches to the last place.
    fn reaches<T>(&self, memory: &[T]) -> bool
        ensures { result ≡ reaches self.now (length memory.now) }
    {
        self.base <= memory.len() && self.places <= memory.len() - self.base
    }

    // Where the place that is k after the oldest lies, counted from `base`.
    fn place(&self, k: usize) -> usize
        requires { k < self.now.places }
        ensures is { result ≡ place_at self.now.head self.now.places k }
        ensures within { result < self.now.places }
    {
        let until_end = self.places - self.head;
        if k < until_end {
            self.head + k
        } else {
            k - until_end
        }
    }

    // Whether a place is free.
    fn has_room<T>(&self, memory: &[T]) -> bool
        ensures is { result ≡ has_room (queue self.now memory.now) }
        ensures within { IsTrue result → self.now.base + self.now.places ≤ length memory.now }
        ensures free { IsTrue result → self.now.waiting < self.now.places }
    {
        self.reaches(memory) && self.waiting < self.places
    }

    // What waits, oldest first, in two runs: up to the last place, and then from the first place on.
    fn runs<'m, T: Copy>(&self, memory: &'m [T]) -> (&'m [T], &'m [T])
        ensures is { result.0.now ++ result.1.now ≡ (queue self.now memory.now).waiting }
        ensures within { length result.0.now + length result.1.now ≤ length memory.now }
        ensures first { slice_get result.0.now 0 ≡ oldest (queue self.now memory.now) }
    {
        if !self.reaches(memory) {
            return (&[], &[]);
        }
        let (late, early) = memory[self.base..self.base + self.places].split_at(self.head);
        let until_end = self.waiting.min(early.len());
        (&early[..until_end], &late[..self.waiting - until_end])
    }

    /// Adds `x` as the newest, or answers no where every place is full.
    // Yes or no, since that is what a bank's offer answers.
    pub fn put<T: Copy>(&mut self, memory: &mut [T], x: T) -> bool
        ensures { Put x self.old memory.old result self.new memory.new }
    {
        if !self.has_room(memory) {
            return false;
        }
        let at = self.base + self.place(self.waiting);
        memory[at] = x;
        self.waiting += 1;
        true
    }

    /// Takes the oldest out.
    #[tactic(auto, using(crate::proofs::Rings::oldest_within))]
    pub fn take<T: Copy>(&mut self, memory: &[T]) -> Option<T>
        ensures { Taken self.old memory.now result self.new }
    {
        let left = self.waiting(memory).checked_sub(1)?;
        let x = memory[self.base + self.head];
        self.head = if self.head + 1 < self.places {
            self.head + 1
        } else {
            0
        };
        self.waiting = left;
        Some(x)
    }

    /// How many elements wait.
    pub fn waiting<T: Copy>(&self, memory: &[T]) -> usize
        ensures is { result ≡ length (queue self.now memory.now).waiting }
        ensures within { result ≤ self.now.places }
    {
        if self.reaches(memory) {
            self.waiting
        } else {
            0
        }
    }

    /// How many of those that wait have this code.
    pub fn count_code<T: Copy + Coded>(&self, memory: &[T], code: u16) -> usize
        ensures is { result ≡ count_by (λ x. nat_eq (T.coded x) code) (queue self.now memory.now).waiting }
        ensures within { result ≤ self.now.places }
    {
        let (first, rest) = self.runs(memory);
        count_in(first, code) + count_in(rest, code)
    }
}

// How many elements of a run have this code.
fn count_in<T: Coded>(run: &[T], code: u16) -> usize
    ensures { result ≡ count_by (λ x. nat_eq (T.coded x) code) run.now }
{
    run.iter().filter(|x| x.code() == code).count()
}
