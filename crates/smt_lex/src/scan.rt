//! How far what begins at the front of the bytes goes.
ghost use Rattle.std.specs.Prelude.{◌≡◌, ◌==◌, ◌≤◌, codes, length, true, false, IfSome};
ghost use Rattle.std.specs.Char.{is_ascii_digit, is_ascii_hexdigit};
ghost use Rattle.std.specs.List.{list_any, prefix_len};
ghost use Rattle.smt_lex.specs.Bytes.{is_space, is_line_end, is_binary_digit, is_symbol_byte, is_quoted_byte};
ghost use Rattle.smt_lex.specs.Grammar.{LongestGap};
ghost use Rattle.smt_lex.specs.code.Scan.{gap_len, text_len};

/// White space: tab, line feed, carriage return, space.
#[tactic(auto, unfolding(crate::specs::Bytes::is_space))]
pub fn is_space(byte: u8) -> bool
    ensures { result ≡ is_space byte }
{
    byte == b'\t' || byte == b'\n' || byte == b'\r' || byte == b' '
}

/// Ends a comment.
#[tactic(auto, unfolding(crate::specs::Bytes::is_line_end))]
pub fn is_line_end(byte: u8) -> bool
    ensures { result ≡ is_line_end byte }
{
    byte == b'\n' || byte == b'\r'
}

/// A mark that may stand in a simple symbol.
#[inline(always)]
fn is_symbol_mark(byte: u8) -> bool
    ensures { result ≡ list_any (λ x. x == byte) (codes "~!@$%^&*_-+=<>.?/") }
{
    byte == b'~'
        || byte == b'!'
        || byte == b'@'
        || byte == b'$'
        || byte == b'%'
        || byte == b'^'
        || byte == b'&'
        || byte == b'*'
        || byte == b'_'
        || byte == b'-'
        || byte == b'+'
        || byte == b'='
        || byte == b'<'
        || byte == b'>'
        || byte == b'.'
        || byte == b'?'
        || byte == b'/'
}

/// May stand in a simple symbol.
#[inline(always)]
#[tactic(auto, unfolding(crate::specs::Bytes::is_symbol_byte))]
pub fn is_symbol_byte(byte: u8) -> bool
    ensures { result ≡ is_symbol_byte byte }
{
    byte.is_ascii_alphanumeric() || is_symbol_mark(byte)
}

/// A digit `0` or `1`.
#[tactic(auto, unfolding(crate::specs::Bytes::is_binary_digit))]
pub fn is_binary_digit(byte: u8) -> bool
    ensures { result ≡ is_binary_digit byte }
{
    byte == b'0' || byte == b'1'
}

/// May stand in a quoted symbol.
#[tactic(auto, unfolding(crate::specs::Bytes::is_quoted_byte))]
pub fn is_quoted_byte(byte: u8) -> bool
    ensures { result ≡ is_quoted_byte byte }
{
    byte != b'|' && byte != b'\\'
}

/// How many digits stand at the front.
pub fn digits(bytes: &[u8]) -> usize
    ensures value { result ≡ prefix_len is_ascii_digit bytes.now }
    ensures within { result ≤ length bytes.now }
{
    bytes.iter().take_while(|b| b.is_ascii_digit()).count()
}

/// How many hexadecimal digits stand at the front.
pub fn hex_digits(bytes: &[u8]) -> usize
    ensures value { result ≡ prefix_len is_ascii_hexdigit bytes.now }
    ensures within { result ≤ length bytes.now }
{
    bytes.iter().take_while(|b| b.is_ascii_hexdigit()).count()
}

/// How many binary digits stand at the front.
pub fn binary_digits(bytes: &[u8]) -> usize
    ensures value { result ≡ prefix_len is_binary_digit bytes.now }
    ensures within { result ≤ length bytes.now }
{
    bytes.iter().take_while(|b| is_binary_digit(**b)).count()
}

/// How many bytes of a simple symbol stand at the front.
pub fn symbol_bytes(bytes: &[u8]) -> usize
    ensures value { result ≡ prefix_len is_symbol_byte bytes.now }
    ensures within { result ≤ length bytes.now }
{
    bytes.iter().take_while(|b| is_symbol_byte(**b)).count()
}

/// How many bytes of a quoted symbol stand at the front.
pub fn quoted_bytes(bytes: &[u8]) -> usize
    ensures value { result ≡ prefix_len is_quoted_byte bytes.now }
    ensures within { result ≤ length bytes.now }
{
    bytes.iter().take_while(|b| is_quoted_byte(**b)).count()
}

/// How many bytes of white space and comments stand at the front.
#[tactic(auto, using(crate::proofs::ScanSteps::gap_steps))]
fn gap_bytes(bytes: &[u8]) -> usize
    ensures value { result ≡ gap_len false bytes.now }
    ensures within { result ≤ length bytes.now }
{
    let mut inside = false;
    for (i, byte) in bytes.iter().enumerate() {
        if inside {
            inside = !is_line_end(*byte);
        } else if *byte == b';' {
            inside = true;
        } else if !is_space(*byte) {
            return i;
        }
    }
    bytes.len()
}

/// How many bytes of white space and comments stand at the front.
pub fn gap(bytes: &[u8]) -> usize
    ensures longest { LongestGap bytes.now result }
    ensures within { result ≤ length bytes.now }
{
    gap_bytes(bytes)
}

/// Behind an opening mark, how many bytes a string takes with its closing mark; `None` where that
/// doesn't come.
#[tactic(auto, using(crate::proofs::ScanSteps::text_steps))]
pub fn text(bytes: &[u8]) -> Option<usize>
    ensures value { result ≡ text_len true bytes.now }
    ensures within { IfSome result (λ n. n ≤ length bytes.now) }
{
    let mut open = true;
    for (i, byte) in bytes.iter().enumerate() {
        if *byte == b'"' {
            open = !open;
        } else if !open {
            return Some(i);
        }
    }
    if open { None } else { Some(bytes.len()) }
}
