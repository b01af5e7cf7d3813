//! Outlines: what the statements of a thread do with locks, and the points of its control flow.
//!
//! An outline keeps of each statement what matters for locks: which resource it takes or gives,
//! how control goes on behind it, and the outline of the function that it calls where that
//! function takes or gives. It knows nothing of C.
//!
//! The crate has no code: what it defines is in `specs/`.
#![tactic(auto)]
