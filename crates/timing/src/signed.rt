// What times are raised by, and the one place where signed numbers are made.
ghost use Rattle.std.specs.Prelude.{◌≡◌, ◌<◌};
ghost use Rattle.std.proofs.Math.IntN.{sub_ℕ};
ghost use Rattle.ticks.specs.Inside.Raised.{SIGNED};

// Times are raised by this, so that none is below zero.
pub(crate) const RAISE: u64 = 4_294_967_296;

// How far a lies after b.
pub(crate) fn minus(a: u64, b: u64) -> i64
    requires { (a < SIGNED) × (b < SIGNED) }
    ensures { result ≡ sub_ℕ a b }
{
    (a as i64) - (b as i64)
}
