// How many answers of a group were right, counted one by one where loops lie in one another.
#[derive(Clone, Copy)]
pub(crate) struct Score {
    pub(crate) right: usize,
}

impl Score {
    pub(crate) fn new() -> Score {
        Score { right: 0 }
    }

    // One answer more. No run comes near the largest count, at which it would stay.
    pub(crate) fn add(&mut self, ok: bool) {
        if ok {
            self.right = self.right.saturating_add(1);
        }
    }
}
