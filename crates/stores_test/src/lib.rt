// Both line stores under one table of calls, and beside a plain vector of lines.
#![tactic(auto)]

#[cfg(test)]
mod agreement;
#[cfg(test)]
mod calls;
#[cfg(test)]
mod tables;
