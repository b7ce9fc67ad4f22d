// Laws alone: what was written of a frame reads back. `specs/Statement` says it, `proofs/Theorems` proves it.
#![tactic(auto)]
