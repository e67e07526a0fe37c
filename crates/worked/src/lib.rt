// Document 01's worked table, proved as a whole: one theorem about the definitions, `worked` of proofs/Worked.antt, and no code.
#![tactic(auto)]
