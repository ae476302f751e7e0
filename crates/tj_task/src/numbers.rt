//! Arithmetic of 64 bits whose clauses are plain equations, so that a task that computes by it needs
//! no proof.
ghost use Rattle.std.specs.Prelude.{◌≡◌, pos};
ghost use Rattle.tj_task.specs.Words as words;

/// The sum, by 64 bits.
pub fn plus(x: i64, y: i64) -> i64
    // It is the sum, the difference or the product by 64 bits.
    ensures { result ≡ words.plus x y }
{
    x.wrapping_add(y)
}

/// The difference, by 64 bits.
pub fn minus(x: i64, y: i64) -> i64
    ensures { result ≡ words.minus x y }
{
    x.wrapping_sub(y)
}

/// The product, by 64 bits.
pub fn times(x: i64, y: i64) -> i64
    ensures { result ≡ words.times x y }
{
    x.wrapping_mul(y)
}

/// The number.
pub fn number(n: u32) -> i64
    // It is the same number.
    ensures { result ≡ pos n }
{
    i64::from(n)
}
