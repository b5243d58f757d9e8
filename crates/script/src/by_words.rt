// Cases, their modes and their plans by the words of lines, the numbers in plain digits.
ghost use Rattle.std.specs.Prelude.{◌≡◌, ◌<◌, [], ◌∷◌, length, map, string_bytes, IfSome, MatchOption};
ghost use Rattle.std.specs.List.{position};
ghost use Rattle.std.specs.Option.{unwrap_or};
ghost use Rattle.script.specs.Cases.{Plays, begins, cases, mode_of};
ghost use Rattle.script.specs.Plans.{table_of};

use crate::words::{number, word};
use channel_plan::{Draft, Plan};
use frame::Mode;

// Whether the first word of the line is `case`.
#[tactic(auto, unfolding(crate::specs::Cases::begins))]
fn begins(line: &String) -> bool
    ensures { result ≡ begins line.now }
{
    word(line.as_str(), 0) == Some("case")
}

// How many lines come before the next case.
fn before_next(lines: &[String]) -> usize
    ensures { result ≡ unwrap_or (position begins lines.now) (length lines.now) }
{
    lines.iter().position(begins).unwrap_or(lines.len())
}

// The lines of the first case, and those after it.
fn first_case(lines: &[String]) -> Option<(&[String], &[String])>
    ensures cut { MatchOption result (cases lines.now ≡ []) (λ p. cases lines.now ≡ p.0.now ∷ cases p.1.now) }
    ensures less { IfSome result (λ p. length p.1.now < length lines.now) }
{
    let (_, rest) = lines.split_first()?;
    Some(lines.split_at(before_next(rest) + 1))
}

/// Calls a function with the lines of each case in turn, up to the first error. A case begins at the first line, and at
/// each line whose first word is `case`.
pub fn each_case<F: FnMut(&[String]) -> anyhow::Result<()>>(
    lines: &[String],
    mut play: F,
) -> anyhow::Result<()>
    requires { F.IsAlwaysCallable play }
    ensures { Plays F.FnMut play (cases lines.now) result }
{
    // The walk over the cases, as in `each_named_case`.
    let mut rest = lines;
    while let Some((case, after)) = first_case(rest) {
        play(case)?;
        rest = after;
    }
    Ok(())
}

/// The mode of a case whose first line is `case NAME MODE ..`.
pub fn mode_of(lines: &[String]) -> Mode
    ensures { result ≡ mode_of lines.now }
{
    match lines.first().and_then(|line| word(line.as_str(), 2)) {
        Some("justified") => Mode::Justified,
        _ => Mode::Synchronous,
    }
}

/// The plan that the rows of a case make. A row that is refused is passed over.
pub fn plan_of(lines: &[String]) -> Plan
    ensures { result.table.entries ≡ table_of (map string_bytes lines.now) }
{
    let mut draft = Draft::new();
    for line in lines {
        let line = line.as_str();
        if word(line, 0) == Some("row") {
            let _ = draft.add(number(line, 1), number(line, 2), number(line, 3));
        }
    }
    draft.seal()
}
