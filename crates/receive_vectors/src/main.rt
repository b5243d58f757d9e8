// Compares reception with what should be received. Standard input is a script, one word or number after another on a line:
//   case NAME MODE START          begins two stations over queue banks, placed or hunting, with no row
//   row CHANNEL RATE FIRST        adds a row to their plan
//   receive BITS                  receives a run of bits
// Each line is printed again. After `receive` come the envelopes in the order given, as `given CHANNEL S OCTET`, and then
// `answer BITS ENVELOPES` or `refused N`; at the end of a case its faults, as `fault KIND CHANNEL BITS`, and
// `status STATE WRONG ERRORED LOST BITS`.
// One station receives a run whole and the other bit by bit. The second shows the order of the envelopes, and where the
// two come to differ, `pieces differ` is printed.
// With a number as its argument it receives so many frames over a pattern bank instead, every slot owned, to measure the
// time.
#![tactic(auto)]

use bank::{Bank, Envelope};
use frame::Mode;
use frame::content::LONGEST;
use pattern_bank::PatternBank;
use queue_bank::{MEMORY, QueueBank};
use station::{Delivery, Station};
use std::alloc::{AllocError, Global};
use std::env;
use std::fmt::Write;
use std::io::{BufRead, BufReader};

// How many bits a station received, and how many envelopes it was given.
#[derive(Clone, Copy, PartialEq, Eq)]
struct Sum {
    bits: usize,
    envelopes: usize,
}

// A station as the first line of a case, `case NAME MODE START`, says.
fn station_of<B: Bank>(lines: &[String], bank: B) -> Station<B> {
    let plan = script::parsed_plan_of(lines);
    let mode = script::mode_between(lines);
    match lines.first() {
        Some(line) if line.as_str().ends_with(" hunting") => Station::hunting(plan, bank, 1, mode),
        _ => Station::placed(plan, bank, 1, mode),
    }
}

// The run that a text of digits stands for: a byte for each.
fn run_of(heap: Global, digits: &str) -> Result<Vec<u8>, AllocError> {
    digits
        .bytes()
        .map(|digit| digit.wrapping_sub(b'0'))
        .collect(heap)
}

// Takes out the first envelope that waits on any channel.
fn collect_any<B: Bank>(bank: &mut B) -> Option<Delivery> {
    (1..=80).find_map(|channel| {
        let envelope = bank.collect(channel)?;
        Some(Delivery { channel, envelope })
    })
}

// What a station tells at the end of a case.
fn report<B: Bank + Drop>(heap: Global, station: Station<B>) -> anyhow::Result<String> {
    let (_, line, mut faults) = station.into_parts();
    let mut text = String::new(heap);
    while let Some(fault) = faults.take() {
        writeln!(text, "fault {fault}")?;
    }
    let state = u8::from(&line.receiver.state);
    let wrong = line.receiver.state.wrong();
    let errored = line.receiver.errored;
    let lost = faults.lost;
    let bits = line.receiver.bits;
    write!(text, "status {state} {wrong} {errored} {lost} {bits}")?;
    Ok(text)
}

// Two stations of one plan, and a bank to exchange with the second's.
#[derive(Drop)]
struct Pair<B> {
    whole: Station<B>,
    bitwise: Station<B>,
    other: B,
}

impl<B: Bank + Drop> Pair<B> {
    // Prints the envelope that was given to the second station.
    fn print_given(&mut self, rt: &HostRuntime) -> anyhow::Result<()> {
        let given = script::with_bank(&mut self.bitwise, &mut self.other, collect_any);
        if let Some(delivery) = given {
            println!(rt; "given {delivery}")?;
        }
        Ok(())
    }

    // The second station receives a run bit by bit; the sum of its answers.
    fn receive_bits(&mut self, rt: &HostRuntime, run: &[u8]) -> anyhow::Result<Sum> {
        let mut sum = Sum {
            bits: 0,
            envelopes: 0,
        };
        for bit in run {
            if let Ok((bits, envelopes)) = self.bitwise.receive(&[*bit]) {
                sum.bits = sum.bits.saturating_add(bits);
                sum.envelopes = sum.envelopes.saturating_add(envelopes);
                if envelopes == 1 {
                    self.print_given(rt)?;
                }
            }
        }
        Ok(sum)
    }

    // Both receive a run, unless it is refused.
    fn receive(&mut self, rt: &HostRuntime, run: &[u8]) -> anyhow::Result<()> {
        match self.whole.receive(run) {
            Ok((bits, envelopes)) => {
                let sum = self.receive_bits(rt, run)?;
                println!(rt; "answer {bits} {envelopes}")?;
                if sum != (Sum { bits, envelopes }) {
                    rt.println("pieces differ")?;
                }
            }
            Err(refusal) => println!(rt; "{refusal}")?,
        }
        Ok(())
    }

    // Prints what the first station tells, which the second should tell too.
    fn end(self, rt: &HostRuntime) -> anyhow::Result<()> {
        let Pair {
            whole,
            bitwise,
            other: _,
        } = self;
        let told = report(rt.alloc(), whole)?;
        rt.println(told.as_str())?;
        if told != report(rt.alloc(), bitwise)? {
            rt.println("pieces differ")?;
        }
        Ok(())
    }
}

// Plays one case over two banks; the third is for the time of a collection.
// The banks are of any kind, since no proof is made of a function that names a station over a bank that lends memory.
fn play_over<B: Bank + Drop>(
    rt: &HostRuntime,
    lines: &[String],
    whole: B,
    bitwise: B,
    other: B,
) -> anyhow::Result<()> {
    let mut pair = Pair {
        whole: station_of(lines, whole),
        bitwise: station_of(lines, bitwise),
        other,
    };
    for line in lines {
        rt.println(line.as_str())?;
        if let Some(digits) = line.as_str().strip_prefix("receive ") {
            pair.receive(rt, &run_of(rt.alloc(), digits)?)?;
        }
    }
    pair.end(rt)
}

// Plays one case.
fn play(rt: &HostRuntime, lines: &[String]) -> anyhow::Result<()> {
    let mut whole = [Envelope::default(); MEMORY];
    let mut bitwise = [Envelope::default(); MEMORY];
    play_over(
        rt,
        lines,
        QueueBank::new(&mut whole),
        QueueBank::new(&mut bitwise),
        QueueBank::new(&mut []),
    )
}

// A placed station over a pattern bank, every slot owned.
fn busy_station() -> Station<PatternBank> {
    let plan = script::busy_plan();
    Station::placed(plan, PatternBank::new(), 1, Mode::Synchronous)
}

// Receives frames of such a station by another; how many bits they had.
fn measure(count: u32) -> usize {
    let mut sender = busy_station();
    let mut receiver = busy_station();
    let mut buffer = [0; LONGEST];
    let mut sum: usize = 0;
    for _ in 0..count {
        if let Ok(length) = sender.send(0, &mut buffer)
            && let Ok((bits, _)) = receiver.receive(&buffer[..length])
        {
            sum = sum.saturating_add(bits);
        }
    }
    sum
}

// With a number as the argument measures so many frames, else plays the script on standard input, each case once the next
// begins, so that it holds the lines of one.
// Each program over scripts reads what it is given itself, since no contract can say what that is.
fn main(rt: HostRuntime) -> anyhow::Result<()> {
    if let Some(count) = env::args(&rt)?.nth(1) {
        let bits = measure(count.as_str().parse().unwrap_or(0));
        println!(rt; "{bits} bits")?;
        return Ok(());
    }
    let input = BufReader::new(rt.alloc(), rt.stdin())?;
    let mut lines = Vec::new(rt.alloc());
    for line in input.lines(rt.alloc()) {
        script::add_line(&mut lines, line?, |case| play(&rt, case))?;
    }
    script::each_named_case(&lines, |case| play(&rt, case))
}
