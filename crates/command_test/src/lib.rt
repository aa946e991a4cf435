// Tests of reading: tables of lines with what they say or the fault that they are refused with.
#![tactic(auto)]

#[cfg(test)]
mod accepted;
#[cfg(test)]
mod parts;
#[cfg(test)]
mod refused;
#[cfg(test)]
mod settings;
#[cfg(test)]
mod shows;
