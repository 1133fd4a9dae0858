#![tactic(auto)]

// Networks, groups of buses, flows and reach: theory alone, no function. Definitions in specs/, laws in proofs/.
