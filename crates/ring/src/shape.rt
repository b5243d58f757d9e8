// The core allocates nothing, so a ring is four plain numbers over memory that is lent, and many rings can lie in one memory.
ghost use Rattle.std.specs.Prelude.{◌<◌, ◌≤◌, max};

/// A queue of `places` places from `base` on in a memory that is lent at each call.
/// Over a memory that does not reach to its last place it is a queue of 0 places.
#[derive(Clone, Copy)]
pub struct Ring {
    pub(super) base: usize,
    pub(super) places: usize,
    // The place of the oldest element, counted from `base`.
    pub(super) head: usize,
    pub(super) waiting: usize,
    ghost inside: { head < max places 1 },
    ghost fits: { waiting ≤ places },
}
