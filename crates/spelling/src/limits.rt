// Numbers held to their limits: one by one, or a run that shares one limit.
ghost use Rattle.std.specs.Prelude.{◌≡◌, ◌<◌, ◌^◌, true, length, replicate};
ghost use Rattle.text.specs.Limit.{is_none, by_rule, within, holds, all_hold, from_zero};

use text::{Limit, Rule};

// What a rule asks of a number, beyond the least and greatest value of its limit. n has 32 bits, so that the product
// fits.
fn by_rule(rule: Rule, last: u32, n: u64) -> bool
    requires { n < 2 ^ 32 }
    ensures { result ≡ by_rule rule last n }
{
    match rule {
        Rule::Plain => true,
        Rule::OrNone => n > 0,
        Rule::Capped => n <= u64::from(last),
        Rule::Product(top) => u64::from(last) * n <= u64::from(top),
    }
}

// The same, out of line, for the reader: of few numbers a rule asks anything, and the others then pay for no switch
// over the rules, by which reading took a tenth more time (BENCH).
#[inline(never)]
fn by_its_rule(rule: Rule, last: u32, n: u64) -> bool
    requires { n < 2 ^ 32 }
    ensures { result ≡ by_rule rule last n }
{
    by_rule(rule, last, n)
}

// Whether n, as it was read, is within a limit, where the number before it is `last`.
pub fn is_within(l: Limit, last: u32, n: u64) -> bool
    ensures told { result ≡ within l last n }
    ensures narrow { result ≡ true → n < 2 ^ 32 }
{
    if n < u64::from(l.low) || n > u64::from(l.high) {
        return false;
    }
    l.rule == Rule::Plain || by_its_rule(l.rule, last, n)
}

// Whether n is a 0 that stands for none.
pub fn is_none(l: Limit, n: u32) -> bool
    ensures { result ≡ is_none l n }
{
    l.rule == Rule::OrNone && n == 0
}

// Whether n may stand there: within the limit, or a 0 for none.
fn may_stand(l: Limit, last: u32, n: u32) -> bool
    ensures { result ≡ holds l last n }
{
    is_none(l, n) || l.low <= n && n <= l.high && by_rule(l.rule, last, u64::from(n))
}

// Whether each of the numbers, of which there are as many as limits, may stand where it does.
pub fn all_hold(table: &[Limit], numbers: &[u32]) -> bool
    requires { length table.now ≡ length numbers.now }
    ensures { result ≡ all_hold table.now 0 numbers.now }
{
    let mut last = 0;
    for (l, n) in table.iter().zip(numbers) {
        if !may_stand(*l, last, *n) {
            return false;
        }
        last = *n;
    }
    true
}

// Whether each of the numbers may stand by one limit, whose range goes down to 0, or to 1 with 0 for none: the greatest
// of them tells, so that the loop has no branch.
pub fn alike_hold(l: Limit, numbers: &[u32]) -> bool
    requires { from_zero l ≡ true }
    ensures { result ≡ all_hold (replicate (length numbers.now) l) 0 numbers.now }
{
    numbers.iter().fold(0, |top, n| top.max(*n)) <= l.high
}
