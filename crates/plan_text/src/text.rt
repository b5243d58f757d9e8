// Fields and numbers in the bytes of a plan file.
ghost use Rattle.std.specs.Prelude.{◌≡◌, ℕ, ◌+◌, length, IfSome, Some, None, MatchOption};
ghost use Rattle.std.specs.Str.{bytes_eq};
ghost use Rattle.plan_text.specs.Numbers.{Writes, digits_of, number_of, opens};
ghost use Rattle.plan_text.specs.Pieces.{Split, Without, fields, three};

/// What stands in the three columns of a line, from left to right.
#[derive(Clone, Copy, Debug, PartialEq, Eq)]
pub struct Columns<T> {
    pub left: T,
    pub middle: T,
    pub right: T,
}

/// The text before the first separator, and the text after it.
pub fn split_once(text: &[u8], separator: u8) -> Option<(&[u8], &[u8])>
    ensures { MatchOption result (Without separator text.now) (λ p. Split separator text.now p.0.now p.1.now) }
{
    let i = text.iter().position(|byte| *byte == separator)?;
    Some((&text[..i], &text[i + 1..]))
}

/// The fields of a line that has three.
pub fn three_fields(line: &[u8]) -> Option<Columns<&[u8]>>
    ensures parts { MatchOption result (three (fields line.now) ≡ None) (λ f. three (fields line.now) ≡ Some (f.left.now, f.middle.now, f.right.now)) }
    ensures long { IfSome result (λ f. length f.left.now + 1 + (length f.middle.now + 1) + length f.right.now ≡ length line.now) }
{
    let (left, rest) = split_once(line, b',')?;
    let (middle, right) = split_once(rest, b',')?;
    // A third comma is one too many: a match, since no method turns what is there into nothing.
    match split_once(right, b',') {
        Some(_) => None,
        None => Some(Columns {
            left,
            middle,
            right,
        }),
    }
}

/// Whether the field is just that word.
pub fn is_word(field: &[u8], word: &[u8]) -> bool
    ensures { result ≡ bytes_eq field.now word.now }
{
    field == word
}

/// The number that a field writes in plain digits.
#[tactic(auto, using(crate::proofs::Plain::writes_by), unfolding(crate::specs::Numbers::number_of))]
pub fn number(field: &[u8]) -> Option<u16>
    ensures value { result ≡ number_of field.now }
    ensures plain { (n : ℕ) → Writes field.now result n }
{
    if opens(field) { digits(field) } else { None }
}

// Whether there is a byte, and no zero before another.
fn opens(field: &[u8]) -> bool
    ensures { result ≡ opens field.now }
{
    match field {
        [] => false,
        [_] => true,
        [first, ..] => *first != b'0',
    }
}

// The number that digits write.
#[tactic(auto, using(crate::proofs::Plain::reading_past))]
fn digits(field: &[u8]) -> Option<u16>
    ensures { result ≡ digits_of field.now }
{
    let mut value: u16 = 0;
    for byte in field {
        if !byte.is_ascii_digit() {
            return None;
        }
        value = value.checked_mul(10)?.checked_add(u16::from(*byte - b'0'))?;
    }
    Some(value)
}
