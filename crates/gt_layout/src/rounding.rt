// Multiples.
ghost use Rattle.std.specs.Prelude.{◌≡◌, ◌≤◌, ◌<◌, ℕ, ◌+◌, ◌-◌, ◌*◌, ◌/◌, ◌%◌, ◌^◌};

// The least multiple of `to` that is not below `n`.
pub fn round_up(n: u64, to: u64) -> u64
    requires some { 0 < to }
    requires small { n + to < 2 ^ 63 }
    ensures value { result ≡ (n + to - 1) / to * to }
    ensures multiple { result % to ≡ 0 }
    ensures after { n ≤ result }
    ensures least { (other : ℕ) → n ≤ other → other % to ≡ 0 → result ≤ other }
    ensures near { result < n + to }
{
    (n + to - 1) / to * to
}
