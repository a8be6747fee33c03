// Growth of the window (01, module 1; policy.rs): which larger capacity a policy names, within a window of a given
// length.
#![tactic(auto)]

ghost use Rattle.growth.specs.Growth.{GrowTo, OfKind};
ghost use Rattle.growth.specs.declared.Policy.TheVariants.{DoubleUntilLimited};

// How the capacity grows: `StdPolicy` doubles below 8 MiB and adds 8 MiB from there, `DoubleUntil(n)` does so at n,
// and `DoubleUntilLimited` refuses besides what is above its limit.
#[derive(Clone, Copy, Debug, PartialEq, Eq)]
pub enum Policy {
    StdPolicy,
    DoubleUntil(usize),
    DoubleUntilLimited { until: usize, limit: usize },
}

impl Policy {
    // The policy of a kind by its number, for callers in C: 0, 1 and 2 in the order above, and none else.
    #[tactic(auto, using(std::proofs::lemmas::Bool::Decides::nat_tests), unfolding(crate::specs::Growth::policy_of))]
    pub fn of_kind(kind: u64, n: usize, limit: usize) -> Option<Policy>
        ensures { OfKind kind n limit result }
    {
        match kind {
            0 => Some(Policy::StdPolicy),
            1 => Some(Policy::DoubleUntil(n)),
            2 => Some(Policy::DoubleUntilLimited { until: n, limit }),
            _ => None,
        }
    }

    // The capacity after `size` in a window of `window` bytes, if the policy names one. Without a limit of its own a
    // policy has the window's length as its limit: what is above that is no growth anyway.
    pub fn grow_to(self, size: usize, window: usize) -> Option<usize>
        ensures { GrowTo self size window result }
    {
        match self {
            // 01's number of this policy, which nothing else has.
            Policy::StdPolicy => grow_by(8388608, window, size, window),
            Policy::DoubleUntil(n) => grow_by(n, window, size, window),
            Policy::DoubleUntilLimited { until, limit } => grow_by(until, limit, size, window),
        }
    }
}

// The rule of every policy: a size below `until` is doubled, and any other grows by `until`.
fn grow_by(until: usize, limit: usize, size: usize, window: usize) -> Option<usize>
    ensures { GrowTo (DoubleUntilLimited until limit) size window result }
{
    let next = size.checked_add(size.min(until))?;
    if size < next && next <= limit && next <= window {
        Some(next)
    } else {
        None
    }
}
