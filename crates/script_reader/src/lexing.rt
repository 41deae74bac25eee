//! Lines and tokens.
ghost use Rattle.std.specs.Prelude.{◌≡◌, ◌∷◌, [], ◌<◌, ◌≤◌, ◌==◌, not, length, position, IfSome, MatchOption, ⊤};
ghost use Rattle.std.specs.List.{position_or_len};
ghost use Rattle.script_language.specs.Lines.{is_blank as blank, is_printable as printable, without_comment};
ghost use Rattle.script_reader.specs.Lexing.{BeginsLines, tokens_in};

fn is_blank(byte: u8) -> bool
    ensures { result ≡ blank byte }
{
    byte == b' ' || byte == b'\t' || byte == b'\r'
}

fn line_feed(text: &[u8]) -> Option<usize>
    ensures { result ≡ position (λ byte. byte == 10) text.now }
{
    text.iter().position(|b| *b == b'\n')
}

fn comment(line: &[u8]) -> Option<usize>
    ensures { result ≡ position (λ byte. byte == 35) line.now }
{
    line.iter().position(|b| *b == b'#')
}

fn blank_byte(line: &[u8]) -> Option<usize>
    ensures { result ≡ position blank line.now }
{
    line.iter().position(|b| is_blank(*b))
}

fn other_byte(line: &[u8]) -> Option<usize>
    ensures { result ≡ position (λ byte. not (blank byte)) line.now }
{
    line.iter().position(|b| !is_blank(*b))
}

/// The index of the first line feed, or the length.
#[tactic(auto, using(crate::proofs::Cuts::position_else_length, crate::proofs::Cuts::position_within))]
fn line_end(text: &[u8]) -> usize
    ensures value { result ≡ position_or_len (λ byte. byte == 10) text.now }
    ensures within { result ≤ length text.now }
{
    line_feed(text).unwrap_or(text.len())
}

/// The index of the first `#`, or the length.
#[tactic(auto, using(crate::proofs::Cuts::position_else_length, crate::proofs::Cuts::position_within))]
fn comment_start(line: &[u8]) -> usize
    ensures value { result ≡ position_or_len (λ byte. byte == 35) line.now }
    ensures within { result ≤ length line.now }
{
    comment(line).unwrap_or(line.len())
}

/// The index of the first blank, or the length.
#[tactic(auto, using(crate::proofs::Cuts::position_else_length, crate::proofs::Cuts::position_within))]
fn token_end(line: &[u8]) -> usize
    ensures value { result ≡ position_or_len blank line.now }
    ensures within { result ≤ length line.now }
{
    blank_byte(line).unwrap_or(line.len())
}

/// The index of the first byte that is no blank, or the length.
#[tactic(auto, using(crate::proofs::Cuts::position_else_length, crate::proofs::Cuts::position_within))]
fn token_start(line: &[u8]) -> usize
    ensures value { result ≡ position_or_len (λ byte. not (blank byte)) line.now }
    ensures within { result ≤ length line.now }
{
    other_byte(line).unwrap_or(line.len())
}

/// The first line of a text, and the text behind its line feed, if it has one.
pub fn split_line(text: &[u8]) -> (&[u8], Option<&[u8]>)
    ensures lines { BeginsLines text.now result.0.now result.1 }
    ensures shorter { IfSome result.1 (λ rest. length rest.now < length text.now) }
{
    let (line, rest) = text.split_at(line_end(text));
    match rest {
        [] => (line, None),
        [_, behind @ ..] => (line, Some(behind)),
    }
}

/// The line without its comment.
pub fn strip_comment(line: &[u8]) -> &[u8]
    ensures { result.now ≡ without_comment line.now }
{
    line.split_at(comment_start(line)).0
}

/// The first token of a line without a comment, and the line behind it.
pub fn next_token(line: &[u8]) -> Option<(&[u8], &[u8])>
    ensures tokens { MatchOption result (tokens_in line.now ≡ [])
        (λ x. tokens_in line.now ≡ x.0.now ∷ tokens_in x.1.now) }
    ensures shorter { MatchOption result ⊤ (λ x. length x.1.now < length line.now) }
{
    let (_, rest) = line.split_at(token_start(line));
    if rest.is_empty() {
        return None;
    }
    Some(rest.split_at(token_end(rest)))
}

/// Whether each byte is a printable character.
pub fn is_printable(token: &[u8]) -> bool
    ensures { result ≡ printable token.now }
{
    token.iter().all(|b| *b >= 33 && *b <= 126)
}
