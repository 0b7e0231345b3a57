// Trials: the proved code, compiled and run on examples.
#![tactic(auto)]

#[cfg(test)]
mod listings;
#[cfg(test)]
mod memories;
#[cfg(test)]
mod policies;
#[cfg(test)]
mod states;
