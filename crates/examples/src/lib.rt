#![tactic(auto)]

// The table of marked examples, under one theorem. Theorems alone.
