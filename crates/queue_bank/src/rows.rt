// The channels of the queue bank, side by side in the memory.
ghost use Rattle.std.specs.Prelude.{◌≡◌, length};
ghost use Rattle.queue_bank.specs.Laid.{Laid};

use super::channel::Channel;
use bank::CHANNELS;
use std::array;

// `eighty` is the array's length, which lemmas on rows need.
#[derive(Drop)]
pub struct Rows {
    pub(super) channels: [Channel; CHANNELS],
    ghost eighty: { length channels ≡ 80 },
    ghost laid: { Laid channels },
}

impl Rows {
    ghost use Rattle.std.specs.Prelude.{ℕ, ◌*◌, ◌<◌, ◌≤◌, slice_index_or};
    ghost use Rattle.queue_bank.specs.declared.channel.Channel.{Channel};
    ghost use Rattle.queue_bank.specs.Standing.{FreshChannel};

    // Every queue is empty.
    pub(super) fn fresh(places: usize) -> Rows
        requires { places ≤ 64 }
        ensures { (k : ℕ) (d : Channel) → k < 80 → FreshChannel (128 * k) places (slice_index_or result.channels k d) }
    {
        Rows {
            channels: array::from_fn(|i| Channel::fresh(i, places)),
        }
    }
}
