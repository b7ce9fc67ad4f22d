// What the bytes of a record hold (docs/RECORDED.md, "Layout").
#![tactic(auto)]

pub mod numbers; // numbers.rt: numbers by their bytes
