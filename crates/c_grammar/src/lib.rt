//! The grammar of the part of C that this tool reads, as a relation.
#![tactic(auto)]

mod depth;
mod fronts;
mod heads;
mod spelled;
mod unspelled;
mod words;

pub use depth::{all_keywords, line_is_spelled, parentheses_take_levels};
pub use fronts::{
    break_fails, empty_is_open, fronts_begin, open_declaration_fails, tokens_one_by_one,
};
pub use heads::{expressions_begin, expressions_end, statements_begin};
pub use spelled::{
    assignments_are_spelled, calls_are_spelled, casts_are_spelled, choices_are_spelled,
    declarations_are_spelled, defined_keywords_are_spelled, expressions_are_spelled,
    functions_are_spelled, library_calls_are_spelled, lines_are_spelled, loops_are_spelled,
    monitor_calls_are_spelled, philosophers_are_spelled, threads_are_spelled, trylocks_are_spelled,
};
pub use unspelled::{
    cast_is_of_argument, no_calls_inside, no_kept_names, no_other_calls, no_other_returns,
    no_other_statements, no_other_trylocks, no_second_definition, nothing_unfinished,
    operators_group_left,
};
pub use words::FixedWord;
