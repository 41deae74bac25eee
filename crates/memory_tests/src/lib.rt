//! Accesses over a memory in which another's updates come between: some attempts come too late, and the access goes on.
#![tactic(auto)]

#[cfg(test)]
mod accesses;
#[cfg(test)]
mod deliveries;
#[cfg(test)]
mod memories;
