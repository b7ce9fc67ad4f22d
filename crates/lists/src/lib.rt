// Laws alone: a test at every element of a list, and lists of rows one after the other.
#![tactic(auto)]
