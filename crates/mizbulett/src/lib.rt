// The calls for C: each returns 0 where it is accepted, else the refusal's number, and writes nothing where it is refused.
#![tactic(auto)]

mod answers;
mod trace_calls;
mod word_calls;
