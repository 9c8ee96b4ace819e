use engine::assignment::Assignment;

// A call of a filter.
#[derive(Clone, Copy, Debug, PartialEq, Eq)]
pub enum Call<'a> {
    Add(&'a [u8]),
    Withdraw(usize),
    Commit,
    Judge(&'a [u8]),
    // with what the place that is lent for a frame holds
    Compare(Assignment),
}
