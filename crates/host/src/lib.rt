// The machine for a host that lends its registers and finds them changed where they lie (document 01): one step, and a
// run. The meaning is machine's (specs/Steps.antt, specs/Runs.antt); the C names are in include/ens2025.h.
#![tactic(auto)]

pub mod run;
pub mod step;
