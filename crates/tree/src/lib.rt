// Definitions and laws alone: a coded text as a tree of questions, for its reader and its writer.
#![tactic(auto)]
