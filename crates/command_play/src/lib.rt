//! `play`: the serial run of a scenario, whose file is its text or its image, as text or JSON Lines.
#![tactic(auto)]

mod form;
mod playing;

pub use form::PlayForm;
pub use playing::play;
