//! The hint of a party of a pool: where its next search for a free bucket begins.
ghost use Rattle.bb_memory_pool_machine.specs.PoolHints.{come_home, comes_to_limit, first_hint, hint_after, hint_at, least_walk, limit_at, limit_from, with_limit};
ghost use Rattle.bb_memory_pool_machine.specs.declared.steps.pool.PoolOutcome.TheVariants.{Gives, Takes};
ghost use Rattle.std.specs.Prelude.{◌+◌, ◌<◌, ◌^◌, ◌≡◌};

/// A party's hint: the bucket at which its next search begins, and its rover, which is the bucket
/// at which a search begins after a taking. The two differ only if the party has given back a
/// bucket since it took its last one.
///
/// A rover that comes to its limit comes home, to the first bucket of the party's part. So a party that only takes uses a few
/// buckets again and again, which are still in a cache.
#[derive(Debug, Clone, Copy, PartialEq, Eq)]
pub struct Hint {
    /// The bucket at which the next search begins.
    pub bucket: u32,
    /// The bucket at which a search begins after a taking.
    pub rover: u32,
    /// The bucket at which the rover comes home. If that is bucket 0, the rover comes home after the last bucket.
    pub limit: u32,
    /// The first bucket of the party's own part of the pool.
    pub home: u32,
    /// The number of buckets over which the rover walks at least before it comes home.
    pub least: u32,
    /// The number of buckets of the pool.
    pub buckets: u32,
}

/// Returns the limit of a rover that may walk over `walk` buckets from `home` on, in a pool of `buckets`. If that is the whole
/// pool, the limit is `home`.
fn limit_at(buckets: u32, home: u32, walk: u64) -> u32
    ensures { result ≡ limit_at buckets home walk }
{
    let all = buckets as u64;
    if walk >= all {
        return home;
    }
    let past = home as u64 + walk;
    (if past > all { past - all } else { past }) as u32
}

/// Returns how many buckets a rover walks over at least before it comes home, for buckets of this size: 64, or as many as fit into
/// 1 MiB if those are fewer, but at least one.
fn least_walk(size: usize) -> u32
    ensures { result ≡ least_walk size }
{
    if size <= 16384 {
        64
    } else if size <= 1048576 {
        (1048576 / size) as u32
    } else {
        1
    }
}

impl Hint {
    /// Returns the first hint of the party of this number, in a pool that this many parties share. The pool is cut into one part
    /// for each party. `size` is the size of a bucket in bytes.
    pub fn first(buckets: u32, parties: u32, size: usize, number: u32) -> Self
        requires { number < parties }
        ensures { result ≡ first_hint buckets parties size number }
    {
        let before = number as u64 * buckets as u64;
        let home = (before / parties as u64) as u32;
        Hint::new(buckets, home, least_walk(size))
    }

    /// Returns the hint of a party that has made no step, whose part begins at bucket `home`.
    fn new(buckets: u32, home: u32, least: u32) -> Self
        ensures { result ≡ hint_at buckets home least }
    {
        let limit = limit_at(buckets, home, least as u64);
        Hint {
            bucket: home,
            rover: home,
            limit,
            home,
            least,
            buckets,
        }
    }

    /// Moves the rover home. The function is inlined, since a request would save more registers for a call.
    #[inline(always)]
    fn come_home(&mut self)
        ensures { self.new ≡ come_home self.old }
    {
        *self = Hint::new(self.buckets, self.home, self.least);
    }

    /// Moves the limit after a search from home that took this bucket, and not the first one. It is inlined as `come_home` is.
    #[inline(always)]
    fn measure(&mut self, bucket: u32)
        ensures { self.new ≡ with_limit self.old (limit_from self.old bucket) }
    {
        let missed = if bucket < self.home {
            self.buckets.saturating_sub(self.home) as u64 + bucket as u64
        } else {
            (bucket - self.home) as u64
        };
        let least = self.least as u64;
        let more = least * missed / 16;
        let walk = missed + 1 + if more > least { more } else { least };
        self.limit = limit_at(self.buckets, self.home, walk);
    }

    /// Returns whether a search that took this bucket came to the limit or past it.
    fn comes_to_limit(&self, bucket: u32) -> bool
        requires { bucket + 1 < 2 ^ 32 }
        ensures { result ≡ comes_to_limit self.now bucket }
    {
        let went_round = bucket < self.bucket;
        if self.bucket < self.limit {
            went_round || bucket + 1 >= self.limit
        } else {
            went_round && bucket + 1 >= self.limit
        }
    }

    /// Moves the hint after this bucket was taken. The rover moves to the bucket after it or comes home, unless this bucket is the
    /// one at which the search began and the rover is elsewhere. The next search begins at the rover.
    #[inline(always)]
    pub fn follow_taking(&mut self, bucket: u32)
        requires { bucket + 1 < 2 ^ 32 }
        ensures { self.new ≡ hint_after self.old (Takes bucket) }
    {
        if bucket == self.rover || bucket != self.bucket {
            if self.bucket == self.home && bucket != self.home {
                self.measure(bucket);
            } else if self.comes_to_limit(bucket) {
                self.come_home();
                return;
            }
            self.rover = bucket + 1;
        }
        self.bucket = self.rover;
    }

    /// Moves the hint after this bucket, at which the search began, was taken.
    #[inline(always)]
    pub fn follow_first(&mut self, bucket: u32)
        requires first { bucket ≡ self.old.bucket }
        requires fits { bucket + 1 < 2 ^ 32 }
        ensures { self.new ≡ hint_after self.old (Takes bucket) }
    {
        if bucket == self.rover {
            self.rover += 1;
            if self.rover == self.limit {
                self.come_home();
                return;
            }
        }
        self.bucket = self.rover;
    }

    /// Moves the hint after this bucket was given back.
    ///
    /// - If the bucket of the hint isn't before the rover, the next search begins at this bucket. The
    ///   rover moves to the bucket of the old hint, unless that is at most 128 ahead of it.
    /// - If it is (then it came back since the party's last taking), and at most 128 before this
    ///   bucket, the next search still begins there. A rover after this bucket moves to this bucket.
    /// - Otherwise the next search begins at this bucket, and the rover moves to the bucket of the
    ///   old hint.
    #[inline(always)]
    pub fn follow_return(&mut self, bucket: u32)
        ensures { self.new ≡ hint_after self.old (Gives bucket) }
    {
        if self.bucket >= self.rover {
            if self.bucket - self.rover > 128 {
                self.rover = self.bucket;
            }
            self.bucket = bucket;
        } else if self.bucket < bucket && bucket - self.bucket <= 128 {
            if bucket < self.rover {
                self.rover = bucket;
            }
        } else {
            self.rover = self.bucket;
            self.bucket = bucket;
        }
    }
}
