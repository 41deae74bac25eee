//! What is judged.
use first_points::JudgedPoints;
use rma_types::Model;
use vector_clocks::Clocks;

/// Accesses with their points in the order of their names, and by which clocks and model they are judged.
#[derive(Clone, Copy, Debug)]
pub(crate) struct Judged<'a> {
    pub(crate) clocks: &'a Clocks,
    pub(crate) accesses: &'a [JudgedPoints],
    pub(crate) model: Model,
}
