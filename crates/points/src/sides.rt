// The places of the sides of propositions.

#[derive(Clone, Copy)]
pub struct SidePlaces<'a> {
    pub left_classes: &'a [u32],
    pub left_heights: &'a [u64],
    pub right_classes: &'a [u32],
    pub right_heights: &'a [u64],
}
