//! Flow lists: scalars in brackets, parted by commas, that may go on over lines.
//!
//! ```text
//! symbols:         [ _exit,    # a comment
//!                    '_write', ]
//! ```

ghost use Rattle.std.specs.Prelude.{◌++◌, Ok, ◌≡◌, ◌≤◌, ◌<◌, ◌+◌, ◌-◌, ℕ, length, drop, slice_index, IfOk};
ghost use Rattle.std.specs.Str.{IsCharBoundary};
ghost use Rattle.macho_stub_lines.specs.Faults.{Gives};
ghost use Rattle.macho_stub_lines.specs.Lists.{gap, mark, names_of, part_of, texts, token_front, behind, list_part, with_front};
ghost use Rattle.macho_stub_lines.specs.steps.Lists.{token_of};

use crate::bytes::{after, byte_at};
use crate::fault::{StubFault, StubRule};
use crate::scalar::{Scalar, scalar_front};

/// What stands before the next token of a list.
#[derive(Clone, Copy, PartialEq, Eq)]
pub enum Expect {
    /// The opening bracket: a scalar or the closing bracket may follow.
    AfterOpen,
    /// A comma: the same.
    AfterComma,
    /// A scalar: a comma or the closing bracket may follow.
    AfterName,
    /// The closing bracket: nothing follows.
    Closed,
}

/// The tokens of a list.
#[derive(Clone, Copy, PartialEq, Eq)]
pub enum TokenKind {
    /// A space, with the comment that follows it at once.
    Gap,
    Comma,
    Close,
    Name,
}

/// A token at the front of a text: the scalar if it is one, and how many bytes it takes.
#[derive(Clone, Copy)]
pub struct Token<'data> {
    pub kind: TokenKind,
    pub text: &'data str,
    pub width: usize,
}

/// The scalars of a list so far, and what stands before the next.
#[derive(Drop)]
pub struct OpenList<'data> {
    pub names: Vec<&'data str>,
    pub expect: Expect,
}

/// A line that is outside the grammar.
pub fn outside(line: u64) -> StubFault
    ensures { result ≡ StubFault.Rule line StubRule.S1 }
{
    StubFault::Rule {
        line,
        rule: StubRule::S1,
    }
}

fn mark<'data>(kind: TokenKind, width: usize) -> Token<'data>
    ensures value { token_of result ≡ mark kind width }
    ensures width { result.width ≡ width }
{
    Token {
        kind,
        text: "",
        width,
    }
}

/// The gap that begins with the text's first byte, a space.
fn gap<'data>(text: &'data str) -> Token<'data>
    requires { slice_index text.now 0 ≡ 32 }
    ensures value { token_of result ≡ gap (drop 1 text.now) }
    ensures cut { IsCharBoundary text.now result.width }
    ensures some { 0 < result.width }
{
    if byte_at(text, 1) == b'#' {
        mark(TokenKind::Gap, text.len())
    } else {
        mark(TokenKind::Gap, 1)
    }
}

/// The token that the text begins with.
#[tactic(auto, unfolding(crate::specs::Lists::token_front))]
fn token_front<'data>(line: u64, text: &'data str) -> Result<Token<'data>, StubFault>
    ensures value { Gives token_of result (token_front line text.now) }
    ensures cut { IfOk result (λ token. IsCharBoundary text.now token.width) }
    ensures some { IfOk result (λ token. 0 < token.width) }
{
    if text.is_empty() {
        return Err(outside(line));
    }
    match byte_at(text, 0) {
        b' ' => Ok(gap(text)),
        b',' => Ok(mark(TokenKind::Comma, 1)),
        b']' => Ok(mark(TokenKind::Close, 1)),
        _ => match scalar_front(text) {
            None => Err(outside(line)),
            Some(Scalar { text, width }) => Ok(Token {
                kind: TokenKind::Name,
                text,
                width,
            }),
        },
    }
}

/// What stands before the next token, behind a token of that kind.
#[tactic(auto, unfolding(crate::specs::Lists::behind))]
fn behind(line: u64, expect: Expect, kind: TokenKind) -> Result<Expect, StubFault>
    ensures { Gives (λ next. next) result (behind line expect kind) }
{
    match (expect, kind) {
        (_, TokenKind::Gap) => Ok(expect),
        (Expect::AfterOpen | Expect::AfterComma, TokenKind::Name) => Ok(Expect::AfterName),
        (Expect::AfterName, TokenKind::Comma) => Ok(Expect::AfterComma),
        (Expect::AfterOpen | Expect::AfterComma | Expect::AfterName, TokenKind::Close) => {
            Ok(Expect::Closed)
        }
        _ => Err(outside(line)),
    }
}

/// The names with that of the token behind them, if it has one.
fn with_name<'data>(
    mut names: Vec<&'data str>,
    token: Token<'data>,
) -> Result<Vec<&'data str>, StubFault>
    ensures { Gives (λ new. texts new.items) result
        (Ok (texts names.entry.items ++ names_of (token_of token.entry))) }
{
    if let TokenKind::Name = token.kind {
        names.push(token.text)?;
    }
    Ok(names)
}

/// Reads the tokens of a line behind what was read of the list.
pub fn list_part<'data>(
    line: u64,
    part: OpenList<'data>,
    text: &'data str,
) -> Result<OpenList<'data>, StubFault>
    ensures { Gives part_of result
        (with_front (texts part.entry.names.items) (list_part line part.entry.expect 0 text.now)) }
{
    let OpenList {
        mut names,
        mut expect,
    } = part;
    let mut rest = text;
    while !rest.is_empty() {
        let token = token_front(line, rest)?;
        expect = behind(line, expect, token.kind)?;
        names = with_name(names, token)?;
        rest = after(rest, token.width);
    }
    Ok(OpenList { names, expect })
}
