//! The program over sources and sinks in memory: texts, words, and streams that are short or fail.
#![tactic(auto)]

#[cfg(test)]
mod ends;
#[cfg(test)]
mod streams;
#[cfg(test)]
mod texts;
#[cfg(test)]
mod words;
