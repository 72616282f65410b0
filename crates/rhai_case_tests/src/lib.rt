//! Tests of calls over lists and texts that are given to them: those of all cases, and some of prompts and hosts.
#![tactic(auto)]

#[cfg(test)]
mod answers;
#[cfg(test)]
mod lists;
#[cfg(test)]
mod readme;
#[cfg(test)]
mod texts;
