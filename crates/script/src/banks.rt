// The bank of a station.
ghost use Rattle.std.specs.Prelude.{◌≡◌};
ghost use Rattle.std.specs.Fn.{FnOnceReturnsAtMut};

use bank::Bank;
use station::Station;

/// Calls a function with the bank of a station, in whose place the other bank stands meanwhile.
pub fn with_bank<B: Bank, R, F: FnOnce(&mut B) -> R>(
    station: &mut Station<B>,
    other: &mut B,
    call: F,
) -> R
    requires { F.IsAlwaysCallable call }
    ensures called { FnOnceReturnsAtMut F.FnOnce call station.old.bank result station.new.bank }
    ensures left { station.new ≡ record { plan = station.old.plan; bank = station.new.bank; line = station.old.line; faults = station.old.faults } }
    ensures other { other.new ≡ other.old }
{
    station.swap_bank(other);
    let answer = call(other);
    station.swap_bank(other);
    answer
}
