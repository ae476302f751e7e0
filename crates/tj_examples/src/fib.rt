//! Fibonacci numbers, with a task for each call.
use std::alloc::Global;
use tj_task::{Do, Oom, Plan, Told, number, plus, steps};

/// A task that computes this number.
#[derive(Clone, Copy)]
pub struct Fib {
    pub n: u32,
}

impl Plan for Fib {
    // Written by launch/mirror from `next`, which the check holds against it.
    ghost use Rattle.std.specs.Prelude.{if◌then◌else◌, nat_lt, pos, ◌-◌};
    ghost use Rattle.tj_task.specs.Words as words;

    ghost asks = { λ t log.
        let n = t.n in
        if nat_lt n 2 then
        words.ends (words.num (pos n))
        else
        words.forks log 0 (record { n = (n - 1) }) (λ a.
        words.forks log 1 (record { n = (n - 2) }) (λ b.
        words.joins log 2 a (λ x.
        words.joins log 3 b (λ y.
        words.ends (words.num (words.plus x y)))))) };

    fn next(&self, alloc: Global, log: &[Told]) -> Result<Do<Fib>, Oom> {
        let n = self.n;
        if n < 2 {
            return steps! { alloc, log; return number(n) };
        }
        steps! { alloc, log;
            let a = fork Fib { n: n - 1 };
            let b = fork Fib { n: n - 2 };
            let x = join a;
            let y = join b;
            return plus(x, y)
        }
    }

    fn twin(&self, _alloc: Global) -> Result<Fib, Oom> {
        Ok(*self)
    }
}
