#![tactic(auto)]

// No code: the guide's sample record with the texts of its Table 35, and two damaged records, computed from the definitions.
