//! The calls of `edd_embed` for C, as `include/edd.h` declares them: each answers 0, or the number of
//! why it did not do what was asked, and then it has written nothing, but where it says so.
//!
//! What C owes is each call's one `requires`: where the numbers of an image are those of the bytes,
//! `edd_load` has accepted these bytes.
#![tactic(auto)]

mod attributes;
mod images;
mod lookups;
mod messages;
mod plays;
mod sessions;
