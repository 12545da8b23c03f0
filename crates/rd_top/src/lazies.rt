//! Counts lazy expressions.

ghost use Rattle.std.specs.Prelude.{◌≡◌, min, sum, map};
ghost use Rattle.rd_registry.specs.Fits as fits;

use rd_base::Text;
use rd_value::expr::Expr;
use rd_value::value::Value;

#[cycle(lazies)]
fn lazies_in(parts: &[Expr]) -> u32
    ensures { result ≡ min (sum (map fits.lazies parts.now)) u32.MAX }
{
    let mut count: u32 = 0;
    for part in parts {
        count = count.saturating_add(lazies(part));
    }
    count
}

#[cycle(lazies)]
fn lazies_named(keywords: &[(Text, Expr)]) -> u32
    ensures { result ≡ min (sum (fits.counts (map (λ p. (p.0, fits.lazies p.1)) keywords.now))) u32.MAX }
{
    let mut count: u32 = 0;
    for (_, part) in keywords {
        count = count.saturating_add(lazies(part));
    }
    count
}

#[cycle(lazies)]
fn lazies_keyed(pairs: &[(Value, Expr)]) -> u32
    ensures { result ≡ min (sum (fits.counts (map (λ p. (p.0, fits.lazies p.1)) pairs.now))) u32.MAX }
{
    let mut count: u32 = 0;
    for (_, part) in pairs {
        count = count.saturating_add(lazies(part));
    }
    count
}

/// The lazy expressions in one, itself among them, or the greatest number of the type where there are more.
#[cycle(lazies)]
pub fn lazies(expr: &Expr) -> u32
    ensures { result ≡ min (fits.lazies expr.now) u32.MAX }
{
    match expr {
        Expr::Val(_) => 0,
        Expr::Input(_) => 1,
        Expr::Call {
            task: _,
            positional,
            keywords,
        } => {
            lazies_in(positional.as_slice())
                .saturating_add(lazies_named(keywords.as_slice()))
                .saturating_add(1)
        }
        Expr::Op { op: _, parts } => lazies_in(parts.as_slice()).saturating_add(1),
        Expr::ListOf(parts) => lazies_in(parts.as_slice()).saturating_add(1),
        Expr::DictOf(pairs) => lazies_keyed(pairs.as_slice()).saturating_add(1),
        Expr::Cond {
            test,
            when_true,
            when_false,
        } => lazies(test.get())
            .saturating_add(lazies(when_true.get()))
            .saturating_add(lazies(when_false.get()))
            .saturating_add(1),
        Expr::Map { task: _, list } => lazies(list.get()).saturating_add(1),
        Expr::Catch {
            tried,
            class: _,
            recover: _,
        } => lazies(tried.get()).saturating_add(1),
    }
}
