//! Rows of definitions that stand in crates above which much is proved: what each must refuse, and
//! what it must take. They stand apart, so that a further row has nothing else proved again; a
//! definition that is changed is refused here as by the rows of its own crate.
#![tactic(auto)]
