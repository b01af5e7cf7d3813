//! What keeps the shape of programs that tokens spell (`c_canonical`): the edits that keep the rules
//! (`kept_rules`), which are copies of functions, takes and gives of monitors that are put in, and other lines.
//!
//! Each law is a function with an empty body, whose contract is the law.
#![tactic(auto)]

mod laws;

pub use laws::{
    copies_keep_the_shape, edits_keep_the_shape, lines_do_not_matter_to_the_shape,
    puts_keep_the_shape,
};
