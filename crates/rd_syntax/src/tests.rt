use crate::{MAX_SOURCE, SourceError, TokenKind, lex};
use rd_base::OutOfMemory;
use std::alloc::Global;
use std::process::Abort;

fn letter(kind: TokenKind) -> &'static str {
    match kind {
        TokenKind::Name => "n",
        TokenKind::Reserved => "r",
        TokenKind::Int => "i",
        TokenKind::Text => "t",
        TokenKind::Sign => "s",
        TokenKind::Newline => "/",
        TokenKind::Indent => ">",
        TokenKind::Dedent => "<",
        TokenKind::End => "!",
    }
}

/// Each token's kind, line and text, or the line of the refusal.
fn shown(alloc: Global, source: &[u8]) -> Result<String, OutOfMemory> {
    match lex(alloc, source) {
        Ok(tokens) => {
            let mut shown = String::new(alloc);
            for token in tokens.as_slice() {
                let kind = letter(token.kind);
                let text = token.text.as_str();
                let one = format!(in alloc; "{kind}{} {text}|", token.line)?;
                shown.push_str(&one)?;
            }
            Ok(shown)
        }
        Err(SourceError::Refused { line }) => Ok(format!(in alloc; "refused {line}")?),
        Err(SourceError::OutOfMemory) => Err(OutOfMemory),
    }
}

/// Where one allocation is made to fail, a second try finds the memory that the first one wanted.
fn shown_at_last(alloc: Global, source: &[u8]) -> Result<String, OutOfMemory> {
    shown(alloc, source).or_else(|_| shown(alloc, source))
}

#[test]
fn tokens(rt: HostRuntime) -> Result<(), OutOfMemory> {
    let table: [(&[u8], &str); 19] = [
        (b"", "!1 |"),
        (b"_a1 = 10", "n1 _a1|s1 =|i1 10|/1 |!1 |"),
        (
            b"if a:\n  b\n# c\nd\n",
            "r1 if|n1 a|s1 :|/1 |>2 |n2 b|/2 |<4 |n4 d|/4 |!4 |",
        ),
        (
            b"while a:\n\n  b",
            "r1 while|n1 a|s1 :|/1 |>3 |n3 b|/3 |<3 |!3 |",
        ),
        (b"and And", "r1 and|n1 And|/1 |!1 |"),
        (
            b"a+=1->2//3!=4<=5",
            "n1 a|s1 +=|i1 1|s1 ->|i1 2|s1 //|i1 3|s1 !=|i1 4|s1 <=|i1 5|/1 |!1 |",
        ),
        (b"===-=>.@", "s1 ==|s1 =|s1 -|s1 =|s1 >|s1 .|s1 @|/1 |!1 |"),
        (b"(\n[\n]\n  )\n", "s1 (|s2 [|s3 ]|s4 )|/4 |!4 |"),
        (b"a\r\nb\r\n", "n1 a|/1 |n2 b|/2 |!2 |"),
        (b"\xEF\xBB\xBFa", "n1 a|/1 |!1 |"),
        (b"a\t # \xE2\x82\xAC\n\t\n", "n1 a|/1 |!2 |"),
        (b"'' \"\" 'a\"' \"'\"", "t1 |t1 |t1 a\"|t1 '|/1 |!1 |"),
        (b"'''a\n''b\"\r\n\\''''", "t1 a\n''b\"\n'|/3 |!3 |"),
        (b"''''a'''", "t1 'a|/1 |!1 |"),
        (
            b"'\\\\\\'\\\"\\n\\r\\t\\x41\\xe9\\xFf'",
            "t1 \\'\"\n\r\tAéÿ|/1 |!1 |",
        ),
        (b"'\xC3\xA9\xE2\x82\xAC\xF0\x9F\x98\x80'", "t1 é€😀|/1 |!1 |"),
        (b"1'x'", "i1 1|t1 x|/1 |!1 |"),
        (b"_'x'", "n1 _|t1 x|/1 |!1 |"),
        (
            b"0 9223372036854775807",
            "i1 0|i1 9223372036854775807|/1 |!1 |",
        ),
    ];
    for (source, want) in table {
        let shown = shown_at_last(rt.alloc(), source)?;
        assert_eq!(rt; shown.as_str(), want);
    }
    Ok(())
}

/// The line of a refusal, or 0.
fn refused_line(alloc: Global, source: &[u8]) -> Result<u32, OutOfMemory> {
    match lex(alloc, source) {
        Err(SourceError::Refused { line }) => Ok(line),
        Err(SourceError::OutOfMemory) => Err(OutOfMemory),
        Ok(_) => Ok(0),
    }
}

#[test]
fn refusals(rt: HostRuntime) {
    let table: [(&[u8], u32); 26] = [
        (b"f(\n", 1),
        (b"f(\n\n x", 3),
        (b" a\n", 1),
        (b"\n\t\n  a\n", 3),
        (b"a\n\t\n\tb\n", 3),
        (b"if a:\n    b\n  c\n", 3),
        (b"a\r\nb\rc", 2),
        (b"a\n# b\rc", 2),
        (b"a\r", 1),
        (b"a\nb = 9223372036854775808\n", 2),
        (b"a\nb = 01\n", 2),
        (b"1a", 1),
        (b"a'x'", 1),
        (b"'a\n'", 1),
        (b"'a", 1),
        (b"\"\"\"a\n'\n", 2),
        (b"'''a'''' ", 1),
        (b"'\\q'", 1),
        (b"'\\x4g'", 1),
        (b"'\xFF'", 1),
        (b"\n# \xED\xA0\x80\n", 2),
        (b"\n# \xC0\x80\n", 2),
        (b"\xEF\xBB\xBF\xEF\xBB\xBF", 1),
        (b"\n\xC3\xA9", 2),
        (b"a !\n", 1),
        (b"a\n$", 2),
    ];
    for (source, want) in table {
        let alloc = rt.alloc();
        let line = refused_line(alloc, source).or_else(|_| refused_line(alloc, source));
        assert_eq!(rt; line, Ok(want));
    }
}

fn token_spans(rt: &impl Abort, alloc: Global) -> Result<(), OutOfMemory> {
    let tokens = lex(alloc, b"\xEF\xBB\xBFif 'a':\r\n  b").map_err(|_| OutOfMemory)?;
    let spans = [
        (3, 5),
        (6, 9),
        (9, 10),
        (10, 12),
        (14, 14),
        (14, 15),
        (15, 15),
        (15, 15),
        (15, 15),
    ];
    assert_eq!(rt; tokens.len(), spans.len());
    for (token, (start, end)) in tokens.as_slice().iter().zip(spans) {
        assert_eq!(rt; token.span.start, start);
        assert_eq!(rt; token.span.end, end);
    }
    Ok(())
}

#[test]
fn spans(rt: HostRuntime) -> Result<(), OutOfMemory> {
    let alloc = rt.alloc();
    token_spans(&rt, alloc).or_else(|_| token_spans(&rt, alloc))
}

fn long_sources(rt: &impl Abort, alloc: Global) -> Result<(), OutOfMemory> {
    let mut source = vec![in alloc; b'\n'; MAX_SOURCE]?;
    assert_eq!(rt; shown(alloc, &source)?.as_str(), "!1048576 |");
    source.push(b'\n')?;
    assert_eq!(rt; shown(alloc, &source)?.as_str(), "refused 1");
    Ok(())
}

#[test]
fn lengths(rt: HostRuntime) -> Result<(), OutOfMemory> {
    let alloc = rt.alloc();
    long_sources(&rt, alloc).or_else(|_| long_sources(&rt, alloc))
}
