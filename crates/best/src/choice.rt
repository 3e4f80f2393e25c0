// What the best pass answers beside the lent lists: the sum of its choice, and how many marks it left out.
#[derive(Clone, Copy, Debug, PartialEq, Eq)]
pub struct Choice {
    pub sum: u32,
    pub count: usize,
}
