// Worked cases: small boards and tables, and what their definitions say is answered there. One theorem, in the contract of one function.
#![tactic(auto)]

ghost use Rattle.std.specs.Prelude.{◌≡◌};
ghost use Rattle.worked.specs.Cases.{CasesStand, WorkedCases};

// How many cases there are; that every one of them holds is what it ensures.
pub fn worked_cases() -> u32
    ensures counted { result ≡ 14 }
    ensures stand { CasesStand }
    ensures hold { WorkedCases }
{
    14
}
