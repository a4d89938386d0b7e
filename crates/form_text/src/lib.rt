// The fields of a text, and the form of a run as text.
// Nothing here has a `requires`: any bytes of any length are read.
#![tactic(auto)]

mod field;
mod form;

pub use field::Fields;
pub use form::form_of;
