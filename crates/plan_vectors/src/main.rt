// Compares plan files with what should be printed of them: for each line `file TEXT` of standard input
// it prints that line and then the report on TEXT, in which `\n` stands for byte 10 and `\xHH` for the
// byte of that hexadecimal number.
#![tactic(auto)]

ghost use Rattle.std.specs.Prelude.{◌<◌, length};
ghost use Rattle.std.specs.Iterator.{at_most};

use channel_plan::report_on;
use std::io::{BufRead, BufReader};

// The value of a hexadecimal digit.
fn digit(byte: u8) -> u8
    ensures { result < 16 }
{
    match byte {
        b'0'..=b'9' => byte - b'0',
        b'a'..=b'f' => byte - b'a' + 10,
        _ => 0,
    }
}

// An iterator over the bytes that a text stands for, where this much of it is left.
#[derive(Drop)]
struct Unescaped<'a> {
    rest: &'a [u8],
}

impl Iterator for Unescaped<'_> {
    type Item = u8;

    ghost remaining = { λ s. at_most (length s.rest.now) };

    fn next(&mut self) -> Option<u8> {
        let (byte, rest) = match self.rest {
            [] => return None,
            [b'\\', b'n', rest @ ..] => (b'\n', rest),
            [b'\\', b'x', high, low, rest @ ..] => (digit(*high) * 16 + digit(*low), rest),
            [byte, rest @ ..] => (*byte, rest),
        };
        self.rest = rest;
        Some(byte)
    }
}

fn run(rt: &HostRuntime) -> anyhow::Result<()> {
    let heap = rt.alloc();
    for line in BufReader::new(heap, rt.stdin())?.lines(heap) {
        let line = line?;
        if let Some(text) = line.as_str().strip_prefix("file ") {
            let escaped = Unescaped {
                rest: text.as_bytes(),
            };
            let file: Vec<u8> = escaped.collect(heap)?;
            rt.println(line.as_str())?;
            rt.print(report_on(heap, file.as_slice())?)?;
        }
    }
    Ok(())
}

fn main(rt: HostRuntime) -> anyhow::Result<()> {
    run(&rt)
}
