// What the plan program prints of a plan file.
ghost use Rattle.std.specs.Prelude.{◌≡◌, IfOk, string_bytes};
ghost use Rattle.channel_plan.specs.Listings.{report};

use crate::draft::Draft;
use std::alloc::{AllocError, Global};

/// The listing of the file's plan, or its refusal.
pub fn report_on(heap: Global, file: &[u8]) -> Result<String, AllocError>
    ensures { IfOk result (λ text. string_bytes text ≡ report file.now) }
{
    let mut draft = Draft::new();
    match draft.load(file) {
        Ok(()) => {
            let plan = draft.seal();
            format!(in heap; "{plan}")
        }
        Err(refusal) => format!(in heap; "{refusal}\n"),
    }
}
