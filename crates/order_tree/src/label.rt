//! The choice of labels.

ghost use Rattle.std.specs.Prelude.{◌+◌, ◌<◌, ◌≤◌, ◌^◌};

/// How many streaks are kept: one for each place where somebody types.
const MOST_STREAKS: usize = 8;

/// How many characters more than it has the second part of a cut run counts for, where the parts share what is free.
const SPARE: u64 = 4;

/// On which side of a run another one comes.
#[derive(Clone, Copy, Debug, PartialEq, Eq)]
enum Side {
    Behind,
    Ahead,
}

/// Runs that were put in one beside the other: the label of the last, on which side of the one before it came, and how many came
/// so. They come on one side, or they turn: each on the other side than the one before, from outside inward.
#[derive(Clone, Copy, Debug)]
struct Streak {
    last: u64,
    side: Side,
    turning: bool,
    times: u32,
}

impl Streak {
    /// One that nothing goes on: no run stands behind the greatest label there is.
    const NONE: Streak = Streak {
        last: u64::MAX,
        side: Side::Behind,
        turning: false,
        times: 0,
    };

    /// Whether a run with a label above `label` and up to `most` goes on with it.
    fn goes_on(&self, label: u64, most: u64) -> bool {
        self.last == label || self.last.checked_sub(1) == Some(most)
    }

    /// The streak with one more run, under a label above `label` and up to `most`. The small part of the gap is on the side where
    /// no more is expected.
    fn with_next(self, label: u64, most: u64) -> Streak
        requires { label < most }
        ensures above { label < result.last }
        ensures within { result.last ≤ most }
    {
        let side = if self.last == label {
            Side::Behind
        } else {
            Side::Ahead
        };
        let turning = side != self.side;
        let times = self.times_with(turning);
        let part = part_of(most - label - 1, times);
        let expected = if turning { self.side } else { side };
        let last = match expected {
            Side::Behind => label + 1 + part,
            Side::Ahead => most - part,
        };
        Streak {
            last,
            side,
            turning,
            times,
        }
    }

    /// How many runs came so, with one more that turns or doesn't. A run that turned alone is the first on its side.
    fn times_with(self, turning: bool) -> u32 {
        if self.turning == turning || self.turning && self.times == 1 {
            self.times.saturating_add(1)
        } else {
            1
        }
    }
}

/// The part of a gap between two runs, where so many came in as expected.
fn part_of(gap: u64, times: u32) -> u64
    ensures { result ≤ gap }
{
    gap / (u64::from(times) + 1)
}

/// The streaks that went on last, in a ring.
#[derive(Clone, Copy, Debug)]
pub struct Recent {
    streaks: [Streak; MOST_STREAKS],
    oldest: usize,
    ghost within: { oldest < 8 },
}

impl Recent {
    /// None yet.
    pub const NONE: Recent = Recent {
        streaks: [Streak::NONE; MOST_STREAKS],
        oldest: 0,
    };

    /// A label above `label` and up to `most`, the greatest that is free, for a run that comes in.
    ///
    /// The first run of a streak halves the gap, the second leaves two thirds of it to those that follow, the third three quarters,
    /// and so on: after so many runs in one place a part as great as one of so many is left. A gap of 2^40 serves a million of
    /// them, on one side as in turn on one side and the other. A run that comes on the side where none is expected finds the
    /// small part of the gap, and halves it.
    pub fn choose(&mut self, label: u64, most: u64) -> u64
        requires { label < most }
        ensures above { label < result }
        ensures within { result ≤ most }
    {
        let found = self
            .streaks
            .iter()
            .position(|streak| streak.goes_on(label, most));
        let (place, streak) = match found {
            Some(place) => (place, self.streaks[place]),
            None => (
                self.begin(),
                Streak {
                    last: label,
                    ..Streak::NONE
                },
            ),
        };
        let next = streak.with_next(label, most);
        self.streaks[place] = next;
        next.last
    }

    /// A place for one more streak, that of the oldest.
    fn begin(&mut self) -> usize
        ensures { result < 8 }
    {
        let place = self.oldest;
        self.oldest = (place + 1) % MOST_STREAKS;
        place
    }
}

/// A label above `label` and up to `most` for the second part of a run of so many characters, cut at one of them. Each part keeps
/// a share of what is free that goes by its length, so a run may be cut often, in any order, before it needs new labels. The second
/// part counts for `SPARE` characters more than it has, since more runs come in behind it than between the parts.
pub fn share(label: u64, most: u64, at: u32, size: u32) -> u64
    requires free { label < most }
    requires inside { at < size }
    ensures above { label < result }
    ensures within { result ≤ most }
{
    label + 1 + share_of(most - label - 1, at, size)
}

/// The share of a gap that so many of a run's characters have.
fn share_of(gap: u64, at: u32, size: u32) -> u64
    requires { at < size }
    ensures { result ≤ gap }
{
    gap / (u64::from(size) + SPARE) * u64::from(at)
}
