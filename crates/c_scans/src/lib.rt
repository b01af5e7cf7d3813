//! Each text is read to its end, or up to what is refused in it.
#![tactic(auto)]

mod laws;

pub use laws::every_text_is_scanned;
