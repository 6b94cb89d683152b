// The shortest of some times: what is least disturbed by whatever else the machine does.
use std::time::Instant;

// A job is done so many times at most, and no more once it has taken so many nanoseconds in all.
const TURNS: u32 = 1_000;

const ENOUGH: u128 = 200_000_000;

// A call that takes microseconds is made so often between two looks at the clock.
pub(crate) const REPEATS: u32 = 10;

#[derive(Clone, Copy)]
pub(crate) struct Best {
    nanoseconds: u128,
    spent: u128,
}

impl Best {
    fn count(&mut self, nanoseconds: u128) {
        self.nanoseconds = self.nanoseconds.min(nanoseconds);
        self.spent = self.spent.saturating_add(nanoseconds);
    }

    fn is_enough(&self) -> bool {
        self.spent >= ENOUGH
    }

    // The time of one call, of a job that makes its call so many times.
    pub(crate) fn picoseconds(&self, repeats: u32) -> u128 {
        self.nanoseconds.saturating_mul(1_000) / u128::from(repeats.max(1))
    }
}

// What a job gives, and how many nanoseconds it takes.
pub(crate) fn timed<T: Drop, J: FnOnce() -> T>(
    rt: &HostRuntime,
    job: J,
) -> anyhow::Result<(T, u128)>
    requires { J.IsAlwaysCallable job }
{
    let start = Instant::now(rt)?;
    let given = job();
    let spent = start.elapsed(rt)?.as_nanos();
    Ok((given, spent))
}

// The best time of a job, done over and over, each time on what is prepared before the clock starts; and what it gave last.
pub(crate) fn best_of<S: Drop, T: Drop, P: FnMut() -> anyhow::Result<S>, J: FnMut(S) -> T>(
    rt: &HostRuntime,
    mut prepare: P,
    mut job: J,
) -> anyhow::Result<(T, Best)>
    requires prepared { P.IsAlwaysCallable prepare }
    requires done { (state : J) (prepared : _) → J.pre state prepared }
{
    let prepared = prepare()?;
    let (mut last, spent) = timed(rt, || job(prepared))?;
    let mut best = Best {
        nanoseconds: spent,
        spent,
    };
    for _ in 1..TURNS {
        if best.is_enough() {
            break;
        }
        let prepared = prepare()?;
        let (given, spent) = timed(rt, || job(prepared))?;
        last = given;
        best.count(spent);
    }
    Ok((last, best))
}
