// The cases of a script, cut at lines that start with `case` and a space, and their modes.
ghost use Rattle.std.specs.Prelude.{◌≡◌, ◌<◌, [], ◌∷◌, ◌++◌, codes, length, IfSome, MatchOption, OnErr, OnOk};
ghost use Rattle.std.specs.List.{position};
ghost use Rattle.std.specs.Option.{unwrap_or};
ghost use Rattle.std.specs.Str.Iter.{HasSubslice};
ghost use Rattle.script.specs.Cases.{Cut, EndsWith, JustifiedWhere, NotTaken, Plays, begins_named, ended, first_line, kept, named_cases};

use frame::Mode;

// Whether a named case begins at the line.
#[tactic(auto, using(std::proofs::lemmas::Str::Pattern::starts_text), unfolding(crate::specs::Cases::begins_named))]
fn begins(line: &String) -> bool
    ensures { result ≡ begins_named line.now }
{
    line.as_str().starts_with("case ")
}

// How many lines come before the next case.
fn before_next(lines: &[String]) -> usize
    ensures { result ≡ unwrap_or (position begins_named lines.now) (length lines.now) }
{
    lines.iter().position(begins).unwrap_or(lines.len())
}

// The lines of the first case, and those after it.
fn first_case(lines: &[String]) -> Option<(&[String], &[String])>
    ensures cut { MatchOption result (named_cases lines.now ≡ []) (λ p. named_cases lines.now ≡ p.0.now ∷ named_cases p.1.now) }
    ensures less { IfSome result (λ p. length p.1.now < length lines.now) }
{
    let (_, rest) = lines.split_first()?;
    Some(lines.split_at(before_next(rest) + 1))
}

/// Calls a function with the lines of each case in turn, up to the first error. A case begins at the first line, and at
/// each line that starts with `case` and a space.
pub fn each_named_case<F: FnMut(&[String]) -> anyhow::Result<()>>(
    lines: &[String],
    mut play: F,
) -> anyhow::Result<()>
    requires { F.IsAlwaysCallable play }
    ensures { Plays F.FnMut play (named_cases lines.now) result }
{
    // The walk over the cases: an iterator of its own would say the same in more lines.
    let mut rest = lines;
    while let Some((case, after)) = first_case(rest) {
        play(case)?;
        rest = after;
    }
    Ok(())
}

/// Takes the next line of a script, of which `lines` holds those of the case so far: where a case begins at it, that
/// case is played first, and its lines go.
#[tactic(auto, using(crate::proofs::Parting::cut_at))]
pub fn add_line<F: FnMut(&[String]) -> anyhow::Result<()>>(
    lines: &mut Vec<String>,
    line: String,
    play: F,
) -> anyhow::Result<()>
    requires { F.IsAlwaysCallable play }
    ensures played { OnOk result (Plays F.FnMut play (ended lines.old.items line) (Ok tt)) }
    ensures left { OnOk result (lines.new.items ≡ kept lines.old.items line ++ line ∷ []) }
    ensures cut { Cut lines.old.items line }
    ensures not_taken { OnErr result (NotTaken F.FnMut play lines.old line lines.new result) }
{
    if begins(&line) {
        each_named_case(lines, play)?;
        lines.clear();
    }
    lines.push(line)?;
    Ok(())
}

// The first line of a case, or nothing where it has none.
fn first_line(lines: &[String]) -> &str
    ensures { result.now ≡ first_line lines.now }
{
    lines.first().map_or("", |line| line.as_str())
}

/// The mode of a case whose first line ends with it, as `case NAME MODE`.
pub fn mode_at_end(lines: &[String]) -> Mode
    ensures { JustifiedWhere (EndsWith (first_line lines.now) (codes " justified")) result }
{
    if first_line(lines).ends_with(" justified") {
        Mode::Justified
    } else {
        Mode::Synchronous
    }
}

/// The mode of a case in whose first line a word follows it, as `case NAME MODE START`.
#[tactic(auto, using(std::proofs::lemmas::Str::Pattern::contains_text))]
pub fn mode_between(lines: &[String]) -> Mode
    ensures { JustifiedWhere (HasSubslice (first_line lines.now) (codes " justified ")) result }
{
    if first_line(lines).contains(" justified ") {
        Mode::Justified
    } else {
        Mode::Synchronous
    }
}
