// What an import would cost (document 02, N8), the call (cost): judged as a list that is offered is, the table copied into the lent scratch
// table (scratch), and the import run in it.
#![tactic(auto)]

pub mod cost;
pub mod scratch;
