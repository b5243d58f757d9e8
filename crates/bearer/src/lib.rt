// What a station receives of the frames that another sends.
#![tactic(auto)]

ghost use Rattle.std.specs.Prelude.{◌≡◌, true};
ghost use Rattle.bearer.specs.InStep.{StaysInStep};

/// Two placed stations are in step, and a station in step with a sender stays so over any number of clean frames: it
/// is aligned, records no fault but of the far alarm, and gives every envelope as it was sent.
#[tactic(auto, using(crate::proofs::Kept::stays))]
pub fn stays_in_step() -> bool
    ensures law { StaysInStep }
    ensures answer { result ≡ true }
{
    true
}
