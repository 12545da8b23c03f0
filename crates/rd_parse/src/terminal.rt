//! What a token is to the grammar.

ghost use Rattle.std.specs.Prelude.{◌≡◌};
ghost use Rattle.rd_parse.specs.Terminal as spec;

use rd_syntax::{Token, TokenKind};

/// The kinds of tokens that the grammar tells apart.
#[derive(Clone, Copy, Debug, PartialEq, Eq)]
pub enum Terminal {
    Name,
    Int,
    Text,
    Newline,
    Indent,
    Dedent,
    End,
    And,
    Def,
    Elif,
    Else,
    False,
    For,
    From,
    If,
    Import,
    In,
    Nothing,
    Not,
    Or,
    Pass,
    Raise,
    Return,
    True,
    While,
    At,
    LeftParen,
    RightParen,
    LeftSquare,
    RightSquare,
    LeftCurly,
    RightCurly,
    Comma,
    Colon,
    Dot,
    Bar,
    Arrow,
    Assign,
    AddAssign,
    Plus,
    Minus,
    Star,
    Slashes,
    Percent,
    Equal,
    NotEqual,
    Less,
    AtMost,
    Greater,
    AtLeast,
    /// A reserved word that stands nowhere.
    Other,
}

fn word(spelling: &str) -> Terminal
    ensures { result ≡ spec.word spelling.now }
{
    match spelling {
        "and" => Terminal::And,
        "def" => Terminal::Def,
        "elif" => Terminal::Elif,
        "else" => Terminal::Else,
        "False" => Terminal::False,
        "for" => Terminal::For,
        "from" => Terminal::From,
        "if" => Terminal::If,
        "import" => Terminal::Import,
        "in" => Terminal::In,
        "None" => Terminal::Nothing,
        "not" => Terminal::Not,
        "or" => Terminal::Or,
        "pass" => Terminal::Pass,
        "raise" => Terminal::Raise,
        "return" => Terminal::Return,
        "True" => Terminal::True,
        "while" => Terminal::While,
        _ => Terminal::Other,
    }
}

fn sign(spelling: &str) -> Terminal
    ensures { result ≡ spec.sign spelling.now }
{
    match spelling {
        "@" => Terminal::At,
        "(" => Terminal::LeftParen,
        ")" => Terminal::RightParen,
        "[" => Terminal::LeftSquare,
        "]" => Terminal::RightSquare,
        "{" => Terminal::LeftCurly,
        "}" => Terminal::RightCurly,
        "," => Terminal::Comma,
        ":" => Terminal::Colon,
        "." => Terminal::Dot,
        "|" => Terminal::Bar,
        "->" => Terminal::Arrow,
        "=" => Terminal::Assign,
        "+=" => Terminal::AddAssign,
        "+" => Terminal::Plus,
        "-" => Terminal::Minus,
        "*" => Terminal::Star,
        "//" => Terminal::Slashes,
        "%" => Terminal::Percent,
        "==" => Terminal::Equal,
        "!=" => Terminal::NotEqual,
        "<" => Terminal::Less,
        "<=" => Terminal::AtMost,
        ">" => Terminal::Greater,
        ">=" => Terminal::AtLeast,
        _ => Terminal::Other,
    }
}

#[tactic(auto, unfolding(crate::specs::Terminal::terminal))]
pub fn terminal_of(token: &Token) -> Terminal
    ensures { result ≡ spec.terminal token.now }
{
    match token.kind {
        TokenKind::Name => Terminal::Name,
        TokenKind::Int => Terminal::Int,
        TokenKind::Text => Terminal::Text,
        TokenKind::Reserved => word(token.text.as_str()),
        TokenKind::Sign => sign(token.text.as_str()),
        TokenKind::Newline => Terminal::Newline,
        TokenKind::Indent => Terminal::Indent,
        TokenKind::Dedent => Terminal::Dedent,
        TokenKind::End => Terminal::End,
    }
}
