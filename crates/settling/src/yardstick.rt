//! What scales are judged by.

mod replaying;
mod settling;

/// What scales are judged by: a measure, which tells how far apart two ratios are, and a costing, which tells what the
/// distances in a whole scale come to.
#[derive(Clone, Copy, Debug, Drop)]
pub struct Yardstick<'a, M, C> {
    pub measure: &'a M,
    pub costing: &'a C,
}
