// The plans of cases.
ghost use Rattle.std.specs.Prelude.{◌≡◌, ℕ, ◌+◌, ◌%◌, ◌<◌, map, string_bytes};
ghost use Rattle.channel_plan.specs.Tables.{owner_of};
ghost use Rattle.script.specs.Plans.{Busy, parsed_table_of};

use crate::words::{numbers, word};
use channel_plan::{Draft, Plan};

/// The plan that the rows of a case make, their numbers as `numbers` reads them. A row that is refused is passed over.
pub fn parsed_plan_of(lines: &[String]) -> Plan
    ensures { result.table.entries ≡ parsed_table_of (map string_bytes lines.now) }
{
    let mut draft = Draft::new();
    for line in lines {
        let line = line.as_str();
        if word(line, 0) == Some("row") {
            let [channel, rate, first] = numbers(line);
            let _ = draft.add(channel, rate, first);
        }
    }
    draft.seal()
}

/// The plan of eighty channels at 750 bit/s, in which every slot is owned.
pub fn busy_plan() -> Plan
    ensures rows { Busy result.table.entries }
    ensures owned { (s : ℕ) → s < 240 → owner_of result.table s ≡ Some (s % 80 + 1) }
{
    let mut draft = Draft::new();
    for slot in 0..80 {
        let _ = draft.add(slot + 1, 750, slot);
    }
    draft.seal()
}
