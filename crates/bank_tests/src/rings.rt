// Two rings in one memory, and a ring over too little memory.
use ring::Ring;

// Two in and two out of a ring of 3 places, many times round, beside another ring that keeps what it holds.
pub(crate) fn go_round(memory: &mut [u32]) -> bool {
    let mut ring = Ring::new(1, 3);
    let mut beside = Ring::new(4, 4);
    beside.put(memory, 77)
        && (0..1000).all(|k| {
            ring.put(memory, k)
                && ring.put(memory, k + 1)
                && ring.take(memory) == Some(k)
                && ring.take(memory) == Some(k + 1)
        })
        && ring.take(memory).is_none()
        && beside.take(memory) == Some(77)
}

// A ring of 4 places from place 2 on, over a memory of 5.
pub(crate) fn reach_too_far() -> bool {
    let mut memory = [0u8; 5];
    let mut ring = Ring::new(2, 4);
    !ring.put(&mut memory, 9) && ring.take(&memory).is_none() && ring.waiting(&memory) == 0
}
