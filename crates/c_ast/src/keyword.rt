//! The keywords by their numbers. Source: C89 3.1.1.
ghost use Rattle.std.specs.Prelude.{◌≡◌, ◌<◌, slice_get, Some};
ghost use Rattle.c_ast.specs.Keywords.{keywords, keyword_of};

use crate::spelling::number_among;

/// The number of `break`.
pub const BREAK: u8 = 1;
/// The number of `case`.
pub const CASE: u8 = 2;
/// The number of `continue`.
pub const CONTINUE: u8 = 5;
/// The number of `default`.
pub const DEFAULT: u8 = 6;
/// The number of `do`.
pub const DO: u8 = 7;
/// The number of `else`.
pub const ELSE: u8 = 9;
/// The number of `enum`.
pub const ENUM: u8 = 10;
/// The number of `for`.
pub const FOR: u8 = 13;
/// The number of `goto`.
pub const GOTO: u8 = 14;
/// The number of `if`.
pub const IF: u8 = 15;
/// The number of `return`.
pub const RETURN: u8 = 19;
/// The number of `sizeof`.
pub const SIZEOF: u8 = 22;
/// The number of `switch`.
pub const SWITCH: u8 = 25;
/// The number of `while`.
pub const WHILE: u8 = 31;

/// How the keyword of this number is spelled. Source: C89 3.1.1.
pub fn keyword_text(number: u8) -> &'static [u8]
    requires { number < 32 }
    ensures { slice_get keywords number ≡ Some result.now }
{
    match number {
        0 => b"auto",
        1 => b"break",
        2 => b"case",
        3 => b"char",
        4 => b"const",
        5 => b"continue",
        6 => b"default",
        7 => b"do",
        8 => b"double",
        9 => b"else",
        10 => b"enum",
        11 => b"extern",
        12 => b"float",
        13 => b"for",
        14 => b"goto",
        15 => b"if",
        16 => b"int",
        17 => b"long",
        18 => b"register",
        19 => b"return",
        20 => b"short",
        21 => b"signed",
        22 => b"sizeof",
        23 => b"static",
        24 => b"struct",
        25 => b"switch",
        26 => b"typedef",
        27 => b"union",
        28 => b"unsigned",
        29 => b"void",
        30 => b"volatile",
        _ => b"while",
    }
}

/// The number of the keyword that is spelled so, if it is one. It is looked for among those that
/// begin with the same byte.
pub fn keyword_number(word: &[u8]) -> Option<u8>
    ensures { result ≡ keyword_of word.now }
{
    let Some((first, rest)) = word.split_first() else {
        return None;
    };
    match *first {
        b'a' => number_among(rest, &[(b"uto", 0)]),
        b'b' => number_among(rest, &[(b"reak", 1)]),
        b'c' => number_among(
            rest,
            &[(b"ase", 2), (b"har", 3), (b"onst", 4), (b"ontinue", 5)],
        ),
        b'd' => number_among(rest, &[(b"efault", 6), (b"o", 7), (b"ouble", 8)]),
        b'e' => number_among(rest, &[(b"lse", 9), (b"num", 10), (b"xtern", 11)]),
        b'f' => number_among(rest, &[(b"loat", 12), (b"or", 13)]),
        b'g' => number_among(rest, &[(b"oto", 14)]),
        b'i' => number_among(rest, &[(b"f", 15), (b"nt", 16)]),
        b'l' => number_among(rest, &[(b"ong", 17)]),
        b'r' => number_among(rest, &[(b"egister", 18), (b"eturn", 19)]),
        b's' => number_among(
            rest,
            &[
                (b"hort", 20),
                (b"igned", 21),
                (b"izeof", 22),
                (b"tatic", 23),
                (b"truct", 24),
                (b"witch", 25),
            ],
        ),
        b't' => number_among(rest, &[(b"ypedef", 26)]),
        b'u' => number_among(rest, &[(b"nion", 27), (b"nsigned", 28)]),
        b'v' => number_among(rest, &[(b"oid", 29), (b"olatile", 30)]),
        b'w' => number_among(rest, &[(b"hile", 31)]),
        _ => None,
    }
}
