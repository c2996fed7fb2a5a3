// What a completion is asked.

/// The law that is to be completed, the law that is looked at in the end, and the weight.
#[derive(Clone, Copy)]
pub(crate) struct Question {
    pub from: u32,
    pub target: u32,
    pub weight: [u32; 3],
}
