// Laws alone: what was written reads back. `specs/Statement` says it, `proofs/Theorems` proves it.
#![tactic(auto)]
