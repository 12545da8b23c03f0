ghost use Rattle.std.specs.Prelude.{◌≡◌};
ghost use Rattle.rd_syntax.specs.Words as spec;

/// Whether the text is a word that is no name.
pub fn is_reserved(text: &str) -> bool
    ensures { result ≡ spec.is_reserved text.now }
{
    matches!(
        text,
        "False"
            | "None"
            | "True"
            | "and"
            | "as"
            | "assert"
            | "async"
            | "await"
            | "break"
            | "class"
            | "continue"
            | "def"
            | "del"
            | "elif"
            | "else"
            | "except"
            | "finally"
            | "for"
            | "from"
            | "global"
            | "if"
            | "import"
            | "in"
            | "is"
            | "lambda"
            | "nonlocal"
            | "not"
            | "or"
            | "pass"
            | "raise"
            | "return"
            | "try"
            | "while"
            | "with"
            | "yield"
    )
}

pub(crate) fn ends_in_letter(text: &[u8]) -> bool
    ensures { result ≡ spec.ends_in_letter text.now }
{
    if text.is_empty() {
        return false;
    }
    let last = text[text.len() - 1];
    (b'a' <= last && last <= b'z') || (b'A' <= last && last <= b'Z')
}
