// All that the port of filter.rs offers, under one name: `use filters::Svf;`.
#![tactic(auto)]

pub use crossover_svf::CrossoverSvf;
pub use dc_blocker::DcBlocker;
pub use filter_core::{FilterMode, Form, FrequencyApproximation, PairForm, Refusal, UnknownNumber};
pub use modified_svf::ModifiedSvf;
pub use naive_svf::NaiveSvf;
pub use one_pole::OnePole;
pub use svf::Svf;
