// What holds of the table of sheets whatever is called: lemmas in proofs/, which stand on the contract of the code that keeps the table.
#![tactic(auto)]
