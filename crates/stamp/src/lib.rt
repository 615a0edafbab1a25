// Stamps that events carry from thread to thread: kinds of stamps, and the one text that carries them over lent tables.
#![tactic(auto)]

pub mod clock;
pub mod kind;
pub mod reach;
pub mod slots;
pub mod tables;

pub use clock::Clock;
pub use kind::Stamp;
pub use reach::Reach;
