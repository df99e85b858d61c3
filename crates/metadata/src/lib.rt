// Metadata pages: written and read. What a page is, is said by the definitions of crate layout.
#![tactic(auto)]

pub mod page;
