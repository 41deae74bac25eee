//! A board by itself, whose tokens are fronts of 16 places.
#![tactic(auto)]

#[cfg(test)]
mod layouts;
#[cfg(test)]
mod steps;
#[cfg(test)]
mod tables;
