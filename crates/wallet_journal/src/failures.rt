//! Which calls of a disk in memory fail.

ghost use Rattle.std.specs.Prelude.{◌≡◌, ◌||◌, if◌then◌else◌, nat_eq, ◌-◌, option_map};
ghost use Rattle.std.specs.List.{list_any};
ghost use Rattle.swap_io.specs.Causes.{next_count};
ghost use Rattle.wallet_journal.specs.Memory.{passes_no_call};

/// The calls that are to fail: those with the numbers in `failing`, counted from 0, and every call
/// after `left` further ones.
#[derive(Debug, Drop)]
pub(crate) struct Failures {
    pub failing: Vec<u64>,
    pub calls: u64,
    pub left: Option<u8>,
    pub count: u64,
}

fn passes_no_call(left: Option<u8>) -> bool
    ensures { result ≡ passes_no_call left }
{
    match left {
        None => false,
        Some(n) => n == 0,
    }
}

fn one_fewer(left: Option<u8>) -> Option<u8>
    ensures { result ≡ option_map (λ n. n - 1) left }
{
    match left {
        None => None,
        Some(n) => Some(n.saturating_sub(1)),
    }
}

impl Failures {
    /// Whether the next call fails, which is counted.
    pub(crate) fn next(&mut self) -> bool
        ensures exact { result ≡ (passes_no_call self.old.left || list_any (nat_eq self.old.calls) self.old.failing.items) }
        ensures calls { self.new.calls ≡ next_count self.old.calls }
        ensures count { self.new.count ≡ (if result then next_count self.old.count else self.old.count) }
        ensures left { self.new.left ≡ option_map (λ n. n - 1) self.old.left }
        ensures same { self.new.failing ≡ self.old.failing }
    {
        let call = self.calls;
        self.calls = self.calls.saturating_add(1);
        let fails = passes_no_call(self.left) || self.failing.contains(&call);
        self.left = one_fewer(self.left);
        if fails {
            self.count = self.count.saturating_add(1);
        }
        fails
    }
}
