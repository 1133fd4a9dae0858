#![tactic(auto)]

// What is said of a network whose branches may be lost: cases, verdicts, records and their changes. Theory alone.
