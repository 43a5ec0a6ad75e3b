// The sizes of a volume.
#[derive(Clone, Copy)]
pub struct Sizes {
    pub i: u64,
    pub j: u64,
    pub k: u64,
}
