//! The laws of nodes and of runs: what each step of a lawful node keeps, so what holds of each node in
//! every world of every run; and that every run is safe (`law_safe`).
//!
//! The laws stand over the definitions of `ring_model`. `docs/MODEL.md` tells when a durable part is
//! sound and a running node lawful.
#![tactic(auto)]

mod laws;

pub use laws::{
    law_chosen_is_valid, law_first_lawful, law_lawful, law_logs_are_valid, law_messages,
    law_possible, law_recovery, law_rows, law_safe, law_sound, law_step_lawful, law_step_possible,
    law_step_sends,
};
