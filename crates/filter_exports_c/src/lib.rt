// The functions of filter_exports for C and Rust to link: the same name, the same values lent and the same clauses for each, and nothing else.
// C takes numbers and arrays, as there, and no generic function can be exported to it: so the functions that are alike but for the type.

#![tactic(auto)]

pub mod crossover_svf_calls;
pub mod dc_blocker_calls;
pub mod modified_svf_calls;
pub mod naive_svf_calls;
pub mod one_pole_calls;
pub mod planes_calls;
pub mod svf_calls;
