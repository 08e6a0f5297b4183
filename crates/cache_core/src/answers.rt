ghost use Rattle.std.specs.Prelude.{◌≡◌, ◌+◌, ◌^◌, ◌<◌, not, IsTrue, None, if◌then◌else◌};
ghost use Rattle.cache_core.specs.Replay.{replaces, writes_back};
ghost use Rattle.cache_core.specs.Stands.{IsBalanced};

/// A block that left its set to make room.
#[derive(Clone, Copy, Debug, PartialEq, Eq)]
pub struct Victim {
    /// The block's first address.
    pub addr: u32,
    /// Whether the block was written while it was held, so that it has to be written back.
    pub dirty: bool,
}

/// What an access met.
#[derive(Clone, Copy, Debug, PartialEq, Eq)]
pub struct Touch {
    /// Whether the block was held.
    pub hit: bool,
    /// The block that left its set for the missing one. `None` exactly where none left: on a hit, and where the set was
    /// not full.
    pub victim: Option<Victim>,
}

/// How often what happened, since the cache was made.
#[derive(Clone, Copy, Debug, PartialEq, Eq)]
pub struct Counts {
    /// The accesses.
    pub accesses: u64,
    /// The accesses whose block was held.
    pub hits: u64,
    /// The accesses whose block was not held.
    pub misses: u64,
    /// The misses for which another block left.
    pub replacements: u64,
    /// The replacements of a dirty block.
    pub writebacks: u64,
}

impl Counts {
    /// Nothing counted yet.
    pub(crate) fn new() -> Counts
        ensures { result ≡ record { accesses = 0; hits = 0; misses = 0; replacements = 0; writebacks = 0 } }
    {
        Counts {
            accesses: 0,
            hits: 0,
            misses: 0,
            replacements: 0,
            writebacks: 0,
        }
    }

    /// Counts one access.
    pub(crate) fn count(&mut self, touch: &Touch)
        requires small { self.old.accesses + 1 < 2 ^ 62 }
        requires balanced { IsBalanced self.old }
        requires replaced { IsTrue touch.now.hit → touch.now.victim ≡ None }
        ensures accesses { self.new.accesses ≡ self.old.accesses + 1 }
        ensures hits { self.new.hits ≡ self.old.hits + (if touch.now.hit then 1 else 0) }
        ensures misses { self.new.misses ≡ self.old.misses + (if not touch.now.hit then 1 else 0) }
        ensures replacements { self.new.replacements ≡ self.old.replacements + (if replaces touch.now then 1 else 0) }
        ensures writebacks { self.new.writebacks ≡ self.old.writebacks + (if writes_back touch.now then 1 else 0) }
        ensures balanced { IsBalanced self.new }
    {
        self.accesses += 1;
        if touch.hit {
            self.hits += 1;
        } else {
            self.misses += 1;
        }
        if let Some(victim) = touch.victim {
            self.replacements += 1;
            if victim.dirty {
                self.writebacks += 1;
            }
        }
    }
}
