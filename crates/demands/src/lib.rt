#![tactic(auto)]

// Theorems alone, over the public promises: demands 1 to 3, uniqueness, the table of marked examples.
