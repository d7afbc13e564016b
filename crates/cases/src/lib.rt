// The worked cases, proved by computation.
#![tactic(auto)]

ghost use Rattle.std.specs.Prelude.{◌≡◌, length};
ghost use Rattle.cases.specs.Cases.{cases, CasesHold};

// How many worked cases are proved.
pub fn worked_cases() -> usize
    ensures count { result ≡ length cases }
    ensures hold { CasesHold }
{
    8
}
