/// One slot of the log: the number of a call that entered, and its place.
#[derive(Clone, Copy, Debug, PartialEq, Eq)]
pub struct Entry {
    pub call: usize,
    pub place: usize,
}

/// How many calls of a replay returned what: accepted bids and leaves, the four answers of a step,
/// and refused calls.
#[derive(Clone, Copy, Debug, Default, PartialEq, Eq)]
pub struct Counts {
    pub bids: usize,
    pub leaves: usize,
    pub waits: usize,
    pub moves: usize,
    pub enters: usize,
    pub outs: usize,
    pub refused: usize,
}

/// What a replay reports.
#[derive(Clone, Copy, Debug, PartialEq, Eq)]
pub struct Summary {
    /// How many calls the record has.
    pub calls: usize,
    pub counts: Counts,
    /// The most accepted calls in one stretch that neither wait nor enter.
    pub gap: usize,
    /// The most entries by others between one accepted bid and that place's next entry, or the end.
    pub passed: usize,
}
