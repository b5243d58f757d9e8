// Compares frames with what should be sent. Standard input is a script, one word or number after another on a line:
//   case NAME MODE                begins a station over a queue bank, with no row
//   row CHANNEL RATE FIRST        adds a row to its plan
//   offer CHANNEL S OCTET         offers an envelope to its bank
//   send JUSTIFICATION            sends a frame
// Each line is printed again, and after `send` the frame, as `frame` and its bits.
// With a number as its argument it sends so many frames over a pattern bank instead, every slot owned, to measure the time.
#![tactic(auto)]

use bank::{Bank, Envelope};
use frame::Mode;
use frame::content::LONGEST;
use pattern_bank::PatternBank;
use queue_bank::{MEMORY, QueueBank};
use script::numbers;
use station::Station;
use std::alloc::{AllocError, Global};
use std::env;
use std::io::{BufRead, BufReader};

// What a line of a case asks for.
enum Command {
    Offer { channel: u16, envelope: Envelope },
    Send { justification: i8 },
}

impl Command {
    // The command of a line, if it has one.
    fn parse(line: &str) -> Option<Command> {
        match line.split_once(' ')? {
            ("offer", _) => {
                let [channel, status, octet] = numbers(line);
                Some(Command::Offer {
                    channel,
                    envelope: Envelope {
                        status: status == 1,
                        octet: (octet % 256) as u8,
                    },
                })
            }
            ("send", rest) => Some(Command::Send {
                justification: rest.parse().unwrap_or(0),
            }),
            _ => None,
        }
    }
}

// The bits of a frame as text.
fn text_of(heap: Global, bits: &[u8]) -> Result<String, AllocError> {
    bits.iter()
        .map(|bit| if *bit == 1 { '1' } else { '0' })
        .collect(heap)
}

// Sends a frame, and prints it.
fn send<B: Bank>(
    rt: &HostRuntime,
    station: &mut Station<B>,
    justification: i8,
) -> anyhow::Result<()> {
    let mut buffer = [0; LONGEST];
    match station.send(justification, &mut buffer) {
        Ok(length) => {
            let bits = text_of(rt.alloc(), &buffer[..length])?;
            println!(rt; "frame {bits}")?;
        }
        Err(refusal) => println!(rt; "{refusal}")?,
    }
    Ok(())
}

// Plays one case over a bank; the other is for the time of an offer.
// The bank is of any kind, since no proof is made of a function that names a station over a bank that lends memory.
fn play_over<B: Bank + Drop>(
    rt: &HostRuntime,
    lines: &[String],
    bank: B,
    mut other: B,
) -> anyhow::Result<()> {
    let plan = script::parsed_plan_of(lines);
    let mut station = Station::placed(plan, bank, 1, script::mode_at_end(lines));
    for line in lines {
        rt.println(line.as_str())?;
        match Command::parse(line.as_str()) {
            Some(Command::Offer { channel, envelope }) => {
                script::with_bank(&mut station, &mut other, |bank| {
                    bank.offer(channel, envelope)
                });
            }
            Some(Command::Send { justification }) => send(rt, &mut station, justification)?,
            None => {}
        }
    }
    Ok(())
}

// Plays one case.
fn play(rt: &HostRuntime, lines: &[String]) -> anyhow::Result<()> {
    let mut memory = [Envelope::default(); MEMORY];
    play_over(
        rt,
        lines,
        QueueBank::new(&mut memory),
        QueueBank::new(&mut []),
    )
}

// Sends frames of a station over a pattern bank, every slot owned; how many bits they had.
fn measure(count: u32) -> usize {
    let plan = script::busy_plan();
    let mut station = Station::placed(plan, PatternBank::new(), 1, Mode::Synchronous);
    let mut buffer = [0; LONGEST];
    let mut sum: usize = 0;
    for _ in 0..count {
        sum = sum.saturating_add(station.send(0, &mut buffer).unwrap_or(0));
    }
    sum
}

// With a number as the argument measures so many frames, else plays the script on standard input, each case once the next
// begins, so that it holds the lines of one.
// Each program over scripts reads what it is given itself, since no contract can say what that is.
fn main(rt: HostRuntime) -> anyhow::Result<()> {
    if let Some(count) = env::args(&rt)?.nth(1) {
        let bits = measure(count.as_str().parse().unwrap_or(0));
        println!(rt; "{bits} bits")?;
        return Ok(());
    }
    let input = BufReader::new(rt.alloc(), rt.stdin())?;
    let mut lines = Vec::new(rt.alloc());
    for line in input.lines(rt.alloc()) {
        script::add_line(&mut lines, line?, |case| play(&rt, case))?;
    }
    script::each_named_case(&lines, |case| play(&rt, case))
}
