// Runs the ring and the banks on examples, and prints of each whether it came out as expected.
#![tactic(auto)]

mod patterns;
mod queues;
mod rings;

use bank::Envelope;
use queue_bank::MEMORY;
use std::io;

fn main(rt: HostRuntime) -> io::Result<()> {
    let mut memory = [Envelope::default(); MEMORY];
    let examples = [
        (
            "two rings in one memory, 1000 times round",
            rings::go_round(&mut [0; 8]),
        ),
        ("a ring over too little memory", rings::reach_too_far()),
        ("0, 1, 63, 64 and 65 offers", queues::fill(&mut memory)),
        ("500 rounds of 50 envelopes", queues::go_round(&mut memory)),
        (
            "65,535 envelopes dropped, and one more",
            queues::overflow(&mut memory),
        ),
        (
            "channels 0, 81 and 65,535 of the queue bank",
            queues::name_no_channel(&mut memory),
        ),
        (
            "a memory of 10,239",
            queues::lack_memory(&mut memory[0..10_239]),
        ),
        ("the pattern begins 7, 190", patterns::begin()),
        (
            "the pattern given back, and 256 times wrong",
            patterns::compare(),
        ),
        (
            "channels 0, 81 and 65,535 of the pattern bank",
            patterns::name_no_channel(),
        ),
    ];
    for (name, passed) in examples {
        println!(rt; "{name}: {passed}")?;
    }
    Ok(())
}
