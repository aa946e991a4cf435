// Cases of reading patterns and of matching, each worked out by hand from what patterns mean.
#![tactic(auto)]

#[cfg(test)]
mod matches;
#[cfg(test)]
mod reads;
#[cfg(test)]
mod sets;
