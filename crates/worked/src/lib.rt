// Worked cases, proved of the rules. Every number in them was worked out by hand from docs/RULES.md.
#![tactic(auto)]

ghost use Rattle.worked.specs.Cases.{WorkedCases};

// Holds the proof of the cases: there is nothing to run.
pub fn worked_cases_hold()
    ensures { WorkedCases }
{}
