//! What holds of every history that the import machine allows, by its rules alone.
#![tactic(auto)]

mod laws;
mod lock_laws;

pub use laws::{
    always_sound, cycle_would_close, deadlock_would_close, initialising_is_own, loads_go_on,
    one_open_load, one_resting_load, replies_fit, roused_cycle_would_close, someone_goes_on,
    taken_cycle_would_close, taken_is_own,
};
pub use lock_laws::a_count_falls_exactly_where_its_lock_is_given;
