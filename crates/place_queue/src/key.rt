//! The keys of the queue, ordered by cost, then by count.
ghost use Rattle.std.specs.Prelude.{◌↔◌, IsTrue};
ghost use Rattle.place_queue.specs.Leq.{Leq};

/// What a place waits with: the less by cost, at equal cost by count.
#[derive(Clone, Copy, Debug, PartialEq, Eq)]
pub struct Key {
    pub cost: u64,
    pub count: u32,
}

impl Key {
    /// Whether it is no greater, by cost, then count.
    pub fn is_at_most(&self, other: &Key) -> bool
        ensures { IsTrue result ↔ Leq self.now other.now }
    {
        self.cost < other.cost || self.cost == other.cost && self.count <= other.count
    }
}
