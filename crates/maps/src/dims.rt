// How often each digit stands in a list, told up to twice.
#[derive(Clone, Copy)]
pub struct Dims {
    pub has: [u64; 10],
}
