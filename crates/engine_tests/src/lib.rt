//! The steps of ranks over a memory in which another's updates come between: an attempt comes too late in the middle of
//! a delivery, and the rank goes on with it.
#![tactic(auto)]

#[cfg(test)]
mod alone;
#[cfg(test)]
mod items;
#[cfg(test)]
mod players;
#[cfg(test)]
mod plays;
#[cfg(test)]
mod seats;
