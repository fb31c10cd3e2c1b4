#![tactic(auto)]

// No code: how long a report can be, and document 01's run, computed from the definitions.
