ghost use Rattle.std.specs.Prelude.{◌≡◌, ◌≤◌, ◌-◌, length, take};
ghost use Rattle.std.specs.Option.{option_map};
ghost use Rattle.etp_text.specs.Machine.{name_at, behind_name, one_letter, two_bytes, three_bytes, named, sign_at, token_at};

/// A token of a text. A name that is none of the 64 variables is unknown.
#[derive(Clone, Copy)]
pub(crate) enum Token {
    Opening,
    Closing,
    Equals,
    Operator,
    Variable(u8),
    Unknown,
}

/// The token at the front, and the bytes behind it; None where no token begins there.
pub(crate) fn token_at(bytes: &[u8]) -> Option<(Token, &[u8])>
    ensures { option_map (λ found. (found.0, found.1.now)) result ≡ token_at bytes.now }
{
    let (byte, rest) = bytes.split_first()?;
    match *byte {
        b'(' => Some((Token::Opening, rest)),
        b')' => Some((Token::Closing, rest)),
        b'=' => Some((Token::Equals, rest)),
        b'*' => Some((Token::Operator, rest)),
        0xe2 => sign_at(rest),
        letter if letter.is_ascii_alphabetic() => {
            let behind = behind_name(rest);
            Some((named(name_before(bytes, behind)), behind))
        }
        _ => None,
    }
}

/// The operator whose sign goes on with these bytes.
fn sign_at(bytes: &[u8]) -> Option<(Token, &[u8])>
    ensures { option_map (λ found. (found.0, found.1.now)) result ≡ sign_at bytes.now }
{
    match bytes {
        [second, third, rest @ ..] if *second == 0x97 && *third == 0x87 => Some((
            Token::Operator,
            rest,
        )),
        _ => None,
    }
}

/// Passes the letters and digits at the front.
fn behind_name(bytes: &[u8]) -> &[u8]
    ensures { result.now ≡ behind_name bytes.now }
{
    let mut rest = bytes;
    while let Some((byte, more)) = rest.split_first() {
        if !byte.is_ascii_alphanumeric() {
            break;
        }
        rest = more;
    }
    rest
}

/// What stands before the rest of the bytes.
fn name_before<'a>(bytes: &'a [u8], behind: &[u8]) -> &'a [u8]
    requires { length behind.now ≤ length bytes.now }
    ensures { result.now ≡ take (length bytes.now - length behind.now) bytes.now }
{
    &bytes[..bytes.len() - behind.len()]
}

/// The token that a name is.
fn named(name: &[u8]) -> Token
    ensures { result ≡ named name.now }
{
    match name {
        [letter] => one_letter(*letter),
        [letter, digit] => two_bytes(*letter, *digit),
        [letter, tens, digit] => three_bytes(*letter, *tens, *digit),
        _ => Token::Unknown,
    }
}

fn one_letter(letter: u8) -> Token
    ensures { result ≡ one_letter letter }
{
    match letter {
        b'x' => Token::Variable(0),
        b'y' => Token::Variable(1),
        b'z' => Token::Variable(2),
        b'w' => Token::Variable(3),
        b'u' => Token::Variable(4),
        b'v' => Token::Variable(5),
        _ => Token::Unknown,
    }
}

fn two_bytes(letter: u8, digit: u8) -> Token
    ensures { result ≡ two_bytes letter digit }
{
    if letter == b'v' && (b'6'..=b'9').contains(&digit) {
        Token::Variable(digit - b'0')
    } else {
        Token::Unknown
    }
}

fn three_bytes(letter: u8, tens: u8, digit: u8) -> Token
    ensures { result ≡ three_bytes letter tens digit }
{
    if letter != b'v' || !(b'1'..=b'6').contains(&tens) || !(b'0'..=b'9').contains(&digit) {
        return Token::Unknown;
    }
    let number = (tens - b'0') * 10 + (digit - b'0');
    if number < 64 {
        Token::Variable(number)
    } else {
        Token::Unknown
    }
}
