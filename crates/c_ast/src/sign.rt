//! The operators and punctuators that are no words, by their numbers. Source: C89 3.1.5 and 3.1.6.
ghost use Rattle.std.specs.Prelude.{◌≡◌, ◌<◌, slice_get, Some};
ghost use Rattle.c_ast.specs.Signs.{signs, sign_of};

use crate::spelling::number_among;

/// The number of `[`.
pub const OPEN_BRACKET: u8 = 0;
/// The number of `]`.
pub const CLOSE_BRACKET: u8 = 1;
/// The number of `(`.
pub const OPEN: u8 = 2;
/// The number of `)`.
pub const CLOSE: u8 = 3;
/// The number of `{`.
pub const OPEN_BRACE: u8 = 4;
/// The number of `}`.
pub const CLOSE_BRACE: u8 = 5;
/// The number of `*`.
pub const STAR: u8 = 11;
/// The number of `?`.
pub const QUESTION: u8 = 30;
/// The number of `:`.
pub const COLON: u8 = 31;
/// The number of `;`.
pub const SEMICOLON: u8 = 32;
/// The number of `...`.
pub const DOTS: u8 = 33;
/// The number of `=`.
pub const EQUALS: u8 = 34;
/// The number of `,`.
pub const COMMA: u8 = 45;

/// How the sign of this number is spelled. Source: C89 3.1.5 and 3.1.6.
pub fn sign_text(number: u8) -> &'static [u8]
    requires { number < 46 }
    ensures { slice_get signs number ≡ Some result.now }
{
    match number {
        0 => b"[",
        1 => b"]",
        2 => b"(",
        3 => b")",
        4 => b"{",
        5 => b"}",
        6 => b".",
        7 => b"->",
        8 => b"++",
        9 => b"--",
        10 => b"&",
        11 => b"*",
        12 => b"+",
        13 => b"-",
        14 => b"~",
        15 => b"!",
        16 => b"/",
        17 => b"%",
        18 => b"<<",
        19 => b">>",
        20 => b"<",
        21 => b">",
        22 => b"<=",
        23 => b">=",
        24 => b"==",
        25 => b"!=",
        26 => b"^",
        27 => b"|",
        28 => b"&&",
        29 => b"||",
        30 => b"?",
        31 => b":",
        32 => b";",
        33 => b"...",
        34 => b"=",
        35 => b"*=",
        36 => b"/=",
        37 => b"%=",
        38 => b"+=",
        39 => b"-=",
        40 => b"<<=",
        41 => b">>=",
        42 => b"&=",
        43 => b"^=",
        44 => b"|=",
        _ => b",",
    }
}

/// The number of the sign that is spelled so, if it is one. It is looked for among those that
/// begin with the same byte.
pub fn sign_number(text: &[u8]) -> Option<u8>
    ensures { result ≡ sign_of text.now }
{
    let Some((first, rest)) = text.split_first() else {
        return None;
    };
    match *first {
        b'[' => number_among(rest, &[(b"", 0)]),
        b']' => number_among(rest, &[(b"", 1)]),
        b'(' => number_among(rest, &[(b"", 2)]),
        b')' => number_among(rest, &[(b"", 3)]),
        b'{' => number_among(rest, &[(b"", 4)]),
        b'}' => number_among(rest, &[(b"", 5)]),
        b'.' => number_among(rest, &[(b"", 6), (b"..", 33)]),
        b'-' => number_among(rest, &[(b">", 7), (b"-", 9), (b"", 13), (b"=", 39)]),
        b'+' => number_among(rest, &[(b"+", 8), (b"", 12), (b"=", 38)]),
        b'&' => number_among(rest, &[(b"", 10), (b"&", 28), (b"=", 42)]),
        b'*' => number_among(rest, &[(b"", 11), (b"=", 35)]),
        b'~' => number_among(rest, &[(b"", 14)]),
        b'!' => number_among(rest, &[(b"", 15), (b"=", 25)]),
        b'/' => number_among(rest, &[(b"", 16), (b"=", 36)]),
        b'%' => number_among(rest, &[(b"", 17), (b"=", 37)]),
        b'<' => number_among(rest, &[(b"<", 18), (b"", 20), (b"=", 22), (b"<=", 40)]),
        b'>' => number_among(rest, &[(b">", 19), (b"", 21), (b"=", 23), (b">=", 41)]),
        b'=' => number_among(rest, &[(b"=", 24), (b"", 34)]),
        b'^' => number_among(rest, &[(b"", 26), (b"=", 43)]),
        b'|' => number_among(rest, &[(b"", 27), (b"|", 29), (b"=", 44)]),
        b'?' => number_among(rest, &[(b"", 30)]),
        b':' => number_among(rest, &[(b"", 31)]),
        b';' => number_among(rest, &[(b"", 32)]),
        b',' => number_among(rest, &[(b"", 45)]),
        _ => None,
    }
}
