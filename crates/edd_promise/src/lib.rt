//! What the calls promise of a compiled image: laws that join the contracts of `compile`, `load`,
//! `attribute`, `play`, sessions, `drive` and sittings at a communicator.
#![tactic(auto)]

pub mod calls;
mod embedded;
mod loading;
mod playing;
mod reading;
mod running;
mod sessions;
mod sittings;
mod sources;

pub use embedded::{compiled_embedded_sessions_run, embedded_sessions_stand};
pub use loading::compiled_images_load;
pub use playing::{compiled_methods_drive, compiled_methods_play, compiled_sessions_run};
pub use reading::{
    attributes_are_read_in_few_steps, compiled_attributes_read, compiled_texts_read,
};
pub use running::valid_images_are_never_stuck;
pub use sessions::{answers_left_over_change_nothing, budgets_are_kept, sessions_are_one_run};
pub use sittings::compiled_sittings_are_explained;
pub use sources::{layouts_keep_the_images, tokens_say_the_images};
