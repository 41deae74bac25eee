//! A script, as far as its lines were read.
use rma_types::{Call, Items};

/// What the lines of a text said so far.
#[derive(Debug, Drop)]
pub struct Draft {
    /// The number of ranks, and 0 as long as no line gave it.
    pub ranks: u8,
    /// The bytes of each rank's space, and none where no line gave them.
    pub spaces: Items<Option<u32>>,
    /// The calls of each rank.
    pub calls: Items<Items<Call>>,
    /// The ranks of the present block, and none as long as no block began.
    pub block: Items<u8>,
    /// How often the present repeat stands, and none outside of one.
    pub times: Option<u32>,
    /// The calls of the present repeat.
    pub inside: Items<Call>,
}
