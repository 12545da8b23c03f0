//! How deep expressions are.

ghost use Rattle.std.specs.Prelude.{◌≡◌, min, map};
ghost use Rattle.rd_value.specs.Depth.{greatest, named_depth, keyed_depth, depth_expr};

use crate::expr::Expr;
use crate::value::Value;
use rd_base::Text;

#[cycle(expr_depth)]
fn parts_depth(parts: &[Expr]) -> u8
    ensures { result ≡ min (greatest (map depth_expr parts.now)) u8.MAX }
{
    let mut deepest: u8 = 0;
    for part in parts {
        deepest = deepest.max(part.depth());
    }
    deepest
}

#[cycle(expr_depth)]
fn keywords_depth(keywords: &[(Text, Expr)]) -> u8
    ensures { result ≡ min (greatest (map named_depth (map (λ p. (p.0, depth_expr p.1)) keywords.now))) u8.MAX }
{
    let mut deepest: u8 = 0;
    for (_, part) in keywords {
        deepest = deepest.max(part.depth());
    }
    deepest
}

#[cycle(expr_depth)]
fn pairs_depth(pairs: &[(Value, Expr)]) -> u8
    ensures { result ≡ min (greatest (map keyed_depth (map (λ p. (p.0, depth_expr p.1)) pairs.now))) u8.MAX }
{
    let mut deepest: u8 = 0;
    for (key, part) in pairs {
        deepest = deepest.max(key.depth()).max(part.depth());
    }
    deepest
}

impl Expr {
    /// The number of its levels, or the greatest number of the type where there are more.
    #[cycle(expr_depth)]
    pub fn depth(&self) -> u8
        ensures { result ≡ min (depth_expr self.now) u8.MAX }
    {
        match self {
            Expr::Val(value) => value.depth(),
            Expr::Call {
                task: _,
                positional,
                keywords,
            } => parts_depth(positional.as_slice())
                .max(keywords_depth(keywords.as_slice()))
                .saturating_add(1),
            Expr::Input(_) => 1,
            Expr::Op { op: _, parts } => parts_depth(parts.as_slice()).saturating_add(1),
            Expr::ListOf(parts) => parts_depth(parts.as_slice()).saturating_add(1),
            Expr::DictOf(pairs) => pairs_depth(pairs.as_slice()).saturating_add(1),
            Expr::Cond {
                test,
                when_true,
                when_false,
            } => test
                .get()
                .depth()
                .max(when_true.get().depth())
                .max(when_false.get().depth())
                .saturating_add(1),
            Expr::Map { task: _, list } => list.get().depth().saturating_add(1),
            Expr::Catch {
                tried,
                class: _,
                recover: _,
            } => tried.get().depth().saturating_add(1),
        }
    }
}
