// Tests of the packed shelf and of guards over it: lists of calls with the answers that the rules give.
#![tactic(auto)]

#[cfg(test)]
mod play;
#[cfg(test)]
mod tests;
