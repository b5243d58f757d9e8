// The lines of a text, and where they stand in their file.
ghost use Rattle.std.specs.Prelude.{◌+◌, ◌≤◌, length};

use plan_text::text;

// A line, with its number from 1 and the byte from 0 where it begins.
#[derive(Clone, Copy)]
pub(crate) struct Line<'a> {
    pub(crate) text: &'a [u8],
    pub(crate) number: usize,
    pub(crate) byte: usize,
    ghost short: { byte + length text.now ≤ 4096 },
}

// An iterator over the lines that byte 10 ends, where the text left is that of a file from the line of
// this number on, which begins at this byte.
#[derive(Drop)]
pub(crate) struct Lines<'a> {
    rest: &'a [u8],
    number: usize,
    byte: usize,
    ghost short: { byte + length rest.now ≤ 4096 },
    ghost counted: { number ≤ byte + 2 },
}

impl Lines<'_> {
    ghost use Rattle.std.specs.Prelude.{◌≡◌, ◌+◌, ◌≤◌, length};
    ghost use Rattle.channel_plan.specs.Numbering.{From};

    pub(crate) fn new(text: &[u8], number: usize, byte: usize) -> Lines<'_>
        requires short { byte + length text.now ≤ 4096 }
        requires counted { number ≤ byte + 2 }
        ensures { From text.now number byte result }
    {
        Lines {
            rest: text,
            number,
            byte,
        }
    }
}

impl<'a> Iterator for Lines<'a> {
    type Item = Line<'a>;

    ghost use Rattle.std.specs.Prelude.{length};
    ghost use Rattle.std.specs.Iterator.{at_most};
    ghost use Rattle.channel_plan.specs.Numbering.{GaveLine};

    ghost next_gives = { GaveLine };

    ghost remaining = { λ s. at_most (length s.rest.now) };

    fn next(&mut self) -> Option<Line<'a>> {
        let (text, rest) = text::split_once(self.rest, b'\n')?;
        let line = Line {
            text,
            number: self.number,
            byte: self.byte,
        };
        self.rest = rest;
        self.number += 1;
        self.byte += text.len() + 1;
        Some(line)
    }
}
