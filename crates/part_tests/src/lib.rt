//! The parts of the program, each by itself: the real streams and those that never fail, the words of the command line,
//! texts of scripts, locks, and the pending accesses of a rank.
#![tactic(auto)]

#[cfg(test)]
mod locks;
#[cfg(test)]
mod queues;
#[cfg(test)]
mod streams;
#[cfg(test)]
mod texts;
#[cfg(test)]
mod words;
