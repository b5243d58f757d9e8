// The examples that settle how the rules are read.
#![tactic(auto)]

ghost use Rattle.std.specs.Prelude.{◌≡◌};
ghost use Rattle.settled.specs.Examples.{Settled};

/// The examples that settle how the rules are read hold; answers how many they are.
#[tactic(auto, using(crate::proofs::Examples::settled))]
pub fn settled_examples() -> usize
    ensures examples { Settled }
    ensures count { result ≡ 27 }
{
    27
}
