// The words of a line, which single spaces separate.
ghost use Rattle.std.specs.Prelude.{◌≡◌, [], ◌∷◌};
ghost use Rattle.std.specs.Option.{option_copied};
ghost use Rattle.script.specs.Words.{number_at, parsed_at, parsed_in, word_at};

use plan_text::text;

/// The word at a place of a line, from 0.
pub fn word(line: &str, place: usize) -> Option<&str>
    ensures { option_copied result ≡ word_at line.now place }
{
    line.split(' ').nth(place)
}

/// The number at a place of a line, in plain digits; a word that is none counts as 0.
pub fn number(line: &str, place: usize) -> u16
    ensures { result ≡ number_at line.now place }
{
    word(line, place)
        .and_then(|word| text::number(word.as_bytes()))
        .unwrap_or(0)
}

/// The number at a place of a line, with a plus or zeros in front or without; a word that is none counts as 0.
pub fn parsed_number(line: &str, place: usize) -> u16
    ensures { result ≡ parsed_at line.now place }
{
    parsed_in(word(line, place))
}

/// The numbers at places 1 to 3 of a line, which is split once.
pub fn numbers(line: &str) -> [u16; 3]
    ensures { result ≡ parsed_at line.now 1 ∷ (parsed_at line.now 2 ∷ (parsed_at line.now 3 ∷ [])) }
{
    let mut words = line.split(' ');
    let _ = words.next();
    [
        parsed_in(words.next()),
        parsed_in(words.next()),
        parsed_in(words.next()),
    ]
}

// The number that a word writes, or 0.
fn parsed_in(word: Option<&str>) -> u16
    ensures { result ≡ parsed_in (option_copied word.entry) }
{
    word.and_then(|word| word.parse().ok()).unwrap_or(0)
}
