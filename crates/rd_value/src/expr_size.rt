//! How many canonical bytes an expression has.

ghost use Rattle.std.specs.Prelude.{◌≡◌, min, map, length};
ghost use Rattle.rd_value.specs.Canon.{string, joined, named, under_key, op_text, canon_expr};
ghost use Rattle.rd_value.specs.Limits.{size_expr};

use crate::expr::{Expr, OpKind};
use crate::size::string_size;
use crate::value::Value;
use rd_base::Text;

impl OpKind {
    /// The text that canonical bytes have for the operator.
    pub fn text(self) -> &'static str
        ensures { result.now ≡ op_text self }
    {
        match self {
            OpKind::Add => "+",
            OpKind::Sub => "-",
            OpKind::Mul => "*",
            OpKind::FloorDiv => "//",
            OpKind::Mod => "%",
            OpKind::Neg => "neg",
            OpKind::Eq => "==",
            OpKind::Ne => "!=",
            OpKind::Lt => "<",
            OpKind::Le => "<=",
            OpKind::Gt => ">",
            OpKind::Ge => ">=",
            OpKind::Index => "[]",
        }
    }
}

fn text_size(text: &str) -> u32
    ensures { result ≡ min (length (string text.now)) u32.MAX }
{
    string_size(text.as_bytes())
}

#[cycle(expr_size)]
fn parts_size(parts: &[Expr]) -> u32
    ensures { result ≡ min (length (joined (map (canon_expr (λ f. f)) parts.now))) u32.MAX }
{
    let mut total: u32 = 0;
    for part in parts {
        total = total.saturating_add(part.size());
    }
    total
}

#[cycle(expr_size)]
fn keywords_size(keywords: &[(Text, Expr)]) -> u32
    ensures { result ≡ min (length (joined (map named (map (λ p. (p.0, canon_expr (λ f. f) p.1)) keywords.now)))) u32.MAX }
{
    let mut total: u32 = 0;
    for (name, part) in keywords {
        total = total
            .saturating_add(text_size(name.as_str()))
            .saturating_add(part.size());
    }
    total
}

#[cycle(expr_size)]
fn pairs_size(pairs: &[(Value, Expr)]) -> u32
    ensures { result ≡ min (length (joined (map (under_key (λ f. f)) (map (λ p. (p.0, canon_expr (λ f. f) p.1)) pairs.now)))) u32.MAX }
{
    let mut total: u32 = 0;
    for (key, part) in pairs {
        total = total.saturating_add(key.size()).saturating_add(part.size());
    }
    total
}

impl Expr {
    /// The number of its canonical bytes, or the greatest number of the type where there are more.
    #[cycle(expr_size)]
    pub fn size(&self) -> u32
        ensures { result ≡ min (size_expr (λ f. f) self.now) u32.MAX }
    {
        match self {
            Expr::Val(value) => value.size().saturating_add(5),
            Expr::Call {
                task,
                positional,
                keywords,
            } => text_size(task.as_str())
                .saturating_add(parts_size(positional.as_slice()))
                .saturating_add(keywords_size(keywords.as_slice()))
                .saturating_add(9),
            Expr::Input(path) => text_size(path.as_str()).saturating_add(5),
            Expr::Op { op, parts } => text_size(op.text())
                .saturating_add(parts_size(parts.as_slice()))
                .saturating_add(5),
            Expr::ListOf(parts) => parts_size(parts.as_slice()).saturating_add(5),
            Expr::DictOf(pairs) => pairs_size(pairs.as_slice()).saturating_add(5),
            Expr::Cond {
                test,
                when_true,
                when_false,
            } => test
                .get()
                .size()
                .saturating_add(when_true.get().size())
                .saturating_add(when_false.get().size())
                .saturating_add(5),
            Expr::Map { task, list } => text_size(task.as_str())
                .saturating_add(list.get().size())
                .saturating_add(5),
            Expr::Catch {
                tried,
                class,
                recover,
            } => tried
                .get()
                .size()
                .saturating_add(text_size(class.name()))
                .saturating_add(text_size(recover.as_str()))
                .saturating_add(5),
        }
    }
}
