// The models in the order of the text: where each begins, its IndexOffset and IndexCount, its type and structure (`kind`: 32 for voxels,
// and the structure's number). Where two share type and structure, only that is told.
#[derive(Clone, Copy)]
pub struct Models {
    pub count: usize,
    pub shared: bool,
    pub at: [usize; 64],
    pub offset: [u64; 64],
    pub length: [u64; 64],
    pub kind: [u64; 64],
}
