#![tactic(auto)]

// Laws, no code: the bytes that a builder writes are those of the pack of the addresses that the delivery points say.
