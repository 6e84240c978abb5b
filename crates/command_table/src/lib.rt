//! What a command line answers: the command table, the texts, and what a run is, as definitions that the program's contracts
//! cite. They stand in the crate's folder `specs`; what holds of them is said in `table_laws`.
#![tactic(auto)]
