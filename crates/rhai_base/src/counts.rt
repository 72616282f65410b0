//! `ParseCounts`: functions begun, and grammar functions active. The greatest number active at once is kept too.

ghost use Rattle.std.specs.Prelude.{◌≡◌};
ghost use Rattle.rhai_base.specs.Counts.{counts_of, none_yet, with_begun, with_ended, with_entered, with_left};
ghost use Rattle.rhai_base.specs.Counts.{with_peak};

/// How many functions and closures have begun, and how many grammar functions are active.
#[derive(Clone, Copy, PartialEq, Eq, Hash, Debug)]
pub struct ParseCounts {
    // Functions and closures that have begun.
    begun: usize,
    // Grammar functions that are active.
    active: usize,
    // The greatest number that was active at once.
    peak: usize,
}

impl ParseCounts {
    /// No function has begun, and no grammar function is active. Does not allocate.
    pub fn new() -> Self
        ensures { counts_of result ≡ none_yet }
    {
        ParseCounts {
            begun: 0,
            active: 0,
            peak: 0,
        }
    }

    /// The number of functions and closures that have begun. Does not allocate.
    pub fn fn_begun(&self) -> usize
        ensures { result ≡ (counts_of self.now).begun }
    {
        self.begun
    }

    /// Counts one more function or closure; saturates. Does not allocate.
    #[tactic(auto, unfolding(rhai_grammar::specs::Settings::one_more))]
    pub fn fn_begin(&mut self)
        ensures { counts_of self.new ≡ with_begun (counts_of self.old) }
    {
        self.begun = self.begun.saturating_add(1);
    }

    /// Counts one function or closure less; saturates at 0. Does not allocate.
    pub fn fn_end(&mut self)
        ensures { counts_of self.new ≡ with_ended (counts_of self.old) }
    {
        self.begun = self.begun.saturating_sub(1);
    }

    /// Counts one more active grammar function; saturates. The peak follows. Does not allocate.
    #[tactic(auto, unfolding(rhai_grammar::specs::Settings::one_more))]
    pub fn nest_enter(&mut self)
        ensures { counts_of self.new ≡ with_entered (counts_of self.old) }
    {
        self.active = self.active.saturating_add(1);
        self.peak = self.peak.max(self.active);
    }

    /// Counts one active grammar function less; saturates at 0. The peak stays. Does not allocate.
    pub fn nest_leave(&mut self)
        ensures { counts_of self.new ≡ with_left (counts_of self.old) }
    {
        self.active = self.active.saturating_sub(1);
    }

    /// The greatest number of grammar functions that were active at once. Does not allocate.
    pub fn nest_peak(&self) -> usize
        ensures { result ≡ (counts_of self.now).peak }
    {
        self.peak
    }

    /// Raises the peak to the one that other counts, which began as these, have reached. Does not allocate.
    pub fn raise_peak(&mut self, reached: &ParseCounts)
        ensures { counts_of self.new ≡ with_peak (counts_of self.old) (counts_of reached.now).peak }
    {
        self.peak = self.peak.max(reached.peak);
    }
}
