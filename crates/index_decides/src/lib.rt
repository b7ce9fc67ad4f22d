// Laws alone: what tests of a record's fields decide (document 01, "Side indices", refusal 8).
#![tactic(auto)]
