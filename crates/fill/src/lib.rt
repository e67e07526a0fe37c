// How values that are read lie in a record's numbers: the contract of the functions that read into a place that they are lent, and its laws.
#![tactic(auto)]
