// The answer of a question that may be refused: 0, or the paper's number of refusal, and a value, 0 where refused.
#[derive(Clone, Copy)]
pub struct Outcome {
    pub number: u64,
    pub value: u64,
}
