// Laws alone: document 01's worked cases as one list, `specs/Statement`, and one theorem that the definitions satisfy it
// all.
#![tactic(auto)]
