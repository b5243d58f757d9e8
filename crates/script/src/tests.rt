// What the functions answer that read by other rules than the programs, beside those of the programs.
use crate::{each_case, each_named_case, mode_of, number, parsed_number, parsed_plan_of, plan_of};
use channel_plan::Plan;
use frame::Mode;
use std::alloc::{AllocError, Global};
use std::test::Fail;

fn lines_of(heap: Global, text: &str) -> Result<Vec<String>, AllocError> {
    let mut lines = Vec::new(heap);
    for line in text.split('\n') {
        lines.push(String::from_str(heap, line)?)?;
    }
    Ok(lines)
}

// How many rows a plan has.
fn rows(plan: &Plan) -> usize {
    (1..=80)
        .filter(|channel| plan.row(*channel).is_some())
        .count()
}

#[test]
fn numbers_are_read_in_plain_digits_or_parsed(rt: HostRuntime) {
    let line = "row 12 012 +12 65536 x";
    for (place, plain, parsed) in [
        (1, 12, 12),
        (2, 0, 12),
        (3, 0, 12),
        (4, 0, 0),
        (5, 0, 0),
        (9, 0, 0),
    ] {
        assert_eq!(rt; number(line, place), plain, "in plain digits, at {place}");
        assert_eq!(rt; parsed_number(line, place), parsed, "parsed, at {place}");
    }
}

#[test]
fn a_case_begins_at_the_word(rt: HostRuntime) -> Result<(), Fail> {
    let lines = lines_of(rt.alloc(), "row 1 750 0\ncase\ncase a b\ncasement\nrow")?;
    let mut lengths = 0_usize;
    each_case(&lines, |case| {
        lengths = lengths.wrapping_mul(10).wrapping_add(case.len());
        Ok(())
    })?;
    assert_eq!(rt; lengths, 113);
    let mut named = 0_usize;
    each_named_case(&lines, |case| {
        named = named.wrapping_mul(10).wrapping_add(case.len());
        Ok(())
    })?;
    assert_eq!(rt; named, 23);
    Ok(())
}

#[test]
fn the_mode_is_the_third_word(rt: HostRuntime) -> Result<(), Fail> {
    for (text, justified) in [
        ("case a justified", true),
        ("case a justified hunting", true),
        ("case a b justified", false),
        ("case a synchronous", false),
        ("case", false),
    ] {
        let lines = lines_of(rt.alloc(), text)?;
        assert_eq!(rt; mode_of(&lines) == Mode::Justified, justified, "{text}");
    }
    Ok(())
}

#[test]
fn rows_are_read_in_plain_digits(rt: HostRuntime) -> Result<(), Fail> {
    let lines = lines_of(
        rt.alloc(),
        "case a b\nrow 1 750 0\nrow 02 750 1\nrow +3 750 2\nrow 1 750 3\noffer 4 750 3",
    )?;
    assert_eq!(rt; rows(&plan_of(&lines)), 1);
    assert_eq!(rt; rows(&parsed_plan_of(&lines)), 3);
    Ok(())
}
