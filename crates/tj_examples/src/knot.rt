//! Two tasks that wait for each other's promise, and a third one that goes on.
use std::alloc::Global;
use tj_task::{Do, Oom, Plan, Told, plus, steps};

/// The root, and the tasks that it starts. A counter goes on by forks, to 2 to the power of n.
#[derive(Clone, Copy)]
pub enum Knot {
    Root(u32),
    Partner,
    Counter(u32),
}

impl Plan for Knot {
    // Written by launch/mirror from `next`, which the check holds against it.
    ghost use Rattle.std.specs.Prelude.{[], if◌then◌else◌, nat_eq, pos, ◌-◌, ◌∷◌};
    ghost use Rattle.tj_task.specs.Words as words;
    ghost use Rattle.tj_examples.specs.declared.knot.Knot.TheVariants as plan;

    ghost asks = { λ t log.
        elim t [
          | plan.Root n ↦
              words.news log 0 (λ p.
              words.news log 1 (λ q.
              words.forks_with log 2 plan.Partner (p.place ∷ q.place ∷ []) (p.place ∷ []) (λ a.
              words.forks_with log 3 plan.Partner (q.place ∷ p.place ∷ []) (q.place ∷ []) (λ b.
              words.forks log 4 (plan.Counter n) (λ c.
              words.joins log 5 c (λ x.
              words.ends (words.num x)))))))
          | plan.Partner ↦
              let mine = words.passed_promise 0 in
              let other = words.passed_promise 1 in
              words.gets log 0 other (λ v.
              words.sets log 1 mine (words.num v) (
              words.ends (words.num v)))
          | plan.Counter n ↦
              if nat_eq n 0 then
              words.prints log 0 (pos 1) (
              words.ends (words.num (pos 1)))
              else
              words.forks log 0 (plan.Counter (n - 1)) (λ a.
              words.forks log 1 (plan.Counter (n - 1)) (λ b.
              words.joins log 2 a (λ x.
              words.joins log 3 b (λ y.
              words.ends (words.num (words.plus x y))))))
        ] };

    fn next(&self, alloc: Global, log: &[Told]) -> Result<Do<Knot>, Oom> {
        match *self {
            Knot::Root(n) => steps! { alloc, log;
                let p = new;
                let q = new;
                let a = fork Knot::Partner, pass [p, q], hand [p];
                let b = fork Knot::Partner, pass [q, p], hand [q];
                let c = fork Knot::Counter(n);
                let x = join c;
                return x
            },
            Knot::Partner => steps! { alloc, log;
                let mine: Promise = passed 0;
                let other: Promise = passed 1;
                let v = get other;
                set mine = v;
                return v
            },
            Knot::Counter(n) => {
                if n == 0 {
                    return steps! { alloc, log; print 1; return 1 };
                }
                steps! { alloc, log;
                    let a = fork Knot::Counter(n - 1);
                    let b = fork Knot::Counter(n - 1);
                    let x = join a;
                    let y = join b;
                    return plus(x, y)
                }
            }
        }
    }

    fn twin(&self, _alloc: Global) -> Result<Knot, Oom> {
        Ok(*self)
    }
}
