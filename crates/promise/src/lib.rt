// What is promised of house and desks, as definitions; they stand in specs/:
//   Bytes, Sheets, Layout   what every call does on the table of sheets, and how calls and answers are written
//   Machine, Desks          any state machine over bytes; what can happen to a house and its desks; what it is to be like one table
//   Promise                 the promises, each a statement; the crates above prove them of the code that runs
#![tactic(auto)]
