// Tokens of small texts: what the rules of the format say of them.

use c_lexer::{LexError, Sign, Span, Token, next_token};
use std::test::Fail;

type Found = Result<Option<(Token, Span)>, LexError>;

fn found(token: Token, start: usize, end: usize) -> Found {
    Ok(Some((token, Span { start, end })))
}

/// What stands first in a short text.
fn first(text: &[u8]) -> Found {
    if text.len() < 1000 {
        next_token(text, 0)
    } else {
        Ok(None)
    }
}

/// The first refusal in a short text, from token to token.
fn refusal(text: &[u8]) -> Option<LexError> {
    let mut at = 0;
    for _ in 0..1000 {
        if text.len() >= 1000 || at > text.len() {
            return None;
        }
        match next_token(text, at) {
            Ok(Some((_, span))) => at = span.end,
            Ok(None) => return None,
            Err(error) => return Some(error),
        }
    }
    None
}

#[test]
fn words(rt: HostRuntime) {
    let cases = [
        ("", Ok(None)),
        (" \t\r\n", Ok(None)),
        ("_a9 b", found(Token::Name, 0, 3)),
        (
            "aaaaaaaaaaaaaaaaaaaaaaaaaaaaaaaaaaaaaaaaaaaaaaaaaaaaaaaaaaaa_B9",
            found(Token::Name, 0, 63),
        ),
        (
            "aaaaaaaaaaaaaaaaaaaaaaaaaaaaaaaaaaaaaaaaaaaaaaaaaaaaaaaaaaaa_B9c",
            Err(LexError::LongName { line: 1 }),
        ),
        ("0", found(Token::Number(0), 0, 1)),
        ("00", Err(LexError::BadNumber { line: 1 })),
        ("010", Err(LexError::BadNumber { line: 1 })),
        ("12x", Err(LexError::BadNumber { line: 1 })),
        ("0x1", Err(LexError::BadNumber { line: 1 })),
        ("2147483647", found(Token::Number(2147483647), 0, 10)),
        ("2147483648", Err(LexError::NumberTooLarge { line: 1 })),
        (
            "99999999999999999999",
            Err(LexError::NumberTooLarge { line: 1 }),
        ),
        ("7.", found(Token::Number(7), 0, 1)),
        ("|", Err(LexError::BadByte { line: 1 })),
        (".", Err(LexError::BadByte { line: 1 })),
        ("..", Err(LexError::BadByte { line: 1 })),
        ("\n..,.", Err(LexError::BadByte { line: 2 })),
        (". ..", Err(LexError::BadByte { line: 1 })),
        (" ...)", found(Token::Sign(Sign::Ellipsis), 1, 4)),
        ("'", Err(LexError::BadByte { line: 1 })),
        ("\n\n@", Err(LexError::BadByte { line: 3 })),
        ("\0", Err(LexError::BadByte { line: 1 })),
        ("\x0b", Err(LexError::BadByte { line: 1 })),
    ];
    for (text, want) in cases {
        assert_eq!(rt; first(text.as_bytes()), want, "at {text}");
    }
}

#[test]
fn texts(rt: HostRuntime) {
    let cases = [
        ("\"\\n\\t\\\\\\\"%d%%\"", found(Token::Text, 0, 14)),
        ("\"\"", found(Token::Text, 0, 2)),
        ("\"a\"b\"", found(Token::Text, 0, 3)),
        ("\"\\\\\"", found(Token::Text, 0, 4)),
        (
            "\"xxxxxxxxxxxxxxxxxxxxxxxxxxxxxxxxxxxxxxxxxxxxxxxxxxxxxxxxxxxxxxxxxxxxxxxxxxxxxxxxxxxxxxxxxxxxxxxxxxxxxxxxxxxxxxxxxxxxxxxx\"",
            found(Token::Text, 0, 122),
        ),
        (
            "\"xxxxxxxxxxxxxxxxxxxxxxxxxxxxxxxxxxxxxxxxxxxxxxxxxxxxxxxxxxxxxxxxxxxxxxxxxxxxxxxxxxxxxxxxxxxxxxxxxxxxxxxxxxxxxxxxxxxxxxxxx\"",
            Err(LexError::BadText { line: 1 }),
        ),
        ("\"a\tb\"", Err(LexError::BadText { line: 1 })),
        ("\n\"ab", Err(LexError::BadText { line: 2 })),
        ("\"%s\"", Err(LexError::BadText { line: 1 })),
        ("\"\\q\"", Err(LexError::BadText { line: 1 })),
        ("\"\\\"", Err(LexError::BadText { line: 1 })),
        ("\"a\n\"", Err(LexError::BadText { line: 1 })),
        ("\"\u{80}\"", Err(LexError::BadText { line: 1 })),
        ("\"%\"", Err(LexError::BadText { line: 1 })),
    ];
    for (text, want) in cases {
        assert_eq!(rt; first(text.as_bytes()), want, "at {text}");
    }
}

#[test]
fn comments(rt: HostRuntime) {
    let cases = [
        ("/* a */", Ok(None)),
        ("//", Ok(None)),
        ("/**/x", found(Token::Name, 4, 5)),
        ("/***/<", found(Token::Sign(Sign::Less), 5, 6)),
        ("/* a */*/", found(Token::Sign(Sign::Star), 7, 8)),
        ("// /*\nx", found(Token::Name, 6, 7)),
        ("/* // */x", found(Token::Name, 8, 9)),
        ("/*/ x", Err(LexError::OpenComment { line: 1 })),
        ("\n\n/*\n\n", Err(LexError::OpenComment { line: 3 })),
        ("/* \u{ff} */ x", found(Token::Name, 9, 10)),
        ("/ /", found(Token::Sign(Sign::Slash), 0, 1)),
    ];
    for (text, want) in cases {
        assert_eq!(rt; first(text.as_bytes()), want, "at {text}");
    }
}

#[test]
fn includes(rt: HostRuntime) {
    let cases = [
        "#include <pthread.h>",
        "#include <stdio.h>",
        "#include <stdlib.h>",
        "#include <stdint.h>",
        "#include <unistd.h>",
        "#include<stdio.h>//",
        "\n \t#include \t <stdint.h>\r\n",
    ];
    for text in cases {
        assert_eq!(rt; first(text.as_bytes()), Ok(None), "at {text}");
    }
}

/// The place of a defined name, the number, and the place of the whole token.
#[test]
fn definitions(rt: HostRuntime) {
    let cases = [
        ("#define N 5", (8, 9, 5), (0, 11)),
        (
            "  #define LIMIT \t2 /* a */ // b\r\nx",
            (10, 15, 2),
            (2, 32),
        ),
        ("#define int 0//", (8, 11, 0), (0, 15)),
        ("#define\tN\t7/**/\r\n", (8, 9, 7), (0, 16)),
        ("#define N 2147483647 ", (8, 9, 2147483647), (0, 21)),
        (
            "#define aaaaaaaaaaaaaaaaaaaaaaaaaaaaaaaaaaaaaaaaaaaaaaaaaaaaaaaaaaaa_B9 5",
            (8, 71, 5),
            (0, 73),
        ),
    ];
    for (text, (start, end, value), (from, upto)) in cases {
        let want = found(Token::Define(Span { start, end }, value), from, upto);
        assert_eq!(rt; first(text.as_bytes()), want, "at {text}");
    }
    let open = first(b"\n#define N 5 /* a */ /* b\n");
    assert_eq!(rt; open, Err(LexError::OpenComment { line: 2 }));
}

/// Lines that are refused as preprocessor lines.
#[test]
fn lines(rt: HostRuntime) {
    let cases = [
        "#include <string.h>",
        "#include \"stdio.h\"",
        "# include <stdio.h>",
        "#include <stdio.h",
        "/**/#include <stdio.h>",
        "\r#include <stdio.h>",
        "#include <stdio.h> #include <stdlib.h>",
        "#incl",
        "#define N 5 /* a\n*/",
        "#define N 5 /* a\n*/ /*",
        "#define N 5x",
        "#define N 05",
        "#define N 2147483648",
        "#define N /**/5",
        "#define N 5 6",
        "#define N 5 /",
        "#define N 5 x /* a",
        "#define N5",
        "#define N(x) 5",
        "#define 5 5",
        "#define N",
        "#define",
        "#define aaaaaaaaaaaaaaaaaaaaaaaaaaaaaaaaaaaaaaaaaaaaaaaaaaaaaaaaaaaa_B9c 5",
        "#define N -5",
    ];
    for text in cases {
        assert_eq!(rt;
            first(text.as_bytes()),
            Err(LexError::BadLine { line: 1 }),
            "at {text}"
        );
    }
    let third = b"#include <pthread.h>\n#include <stdio.h>\n#define LIMI";
    assert_eq!(rt; first(third), Err(LexError::BadLine { line: 3 }));
}

const SIGNS: [(&str, Sign); 32] = [
    ("(", Sign::LeftParenthesis),
    (")", Sign::RightParenthesis),
    ("{", Sign::LeftBrace),
    ("}", Sign::RightBrace),
    ("[", Sign::LeftBracket),
    ("]", Sign::RightBracket),
    (";", Sign::Semicolon),
    (",", Sign::Comma),
    ("&", Sign::Ampersand),
    ("*", Sign::Star),
    ("=", Sign::Assign),
    ("==", Sign::Equal),
    ("!=", Sign::NotEqual),
    ("<", Sign::Less),
    ("<=", Sign::LessEqual),
    (">", Sign::Greater),
    (">=", Sign::GreaterEqual),
    ("+", Sign::Plus),
    ("-", Sign::Minus),
    ("/", Sign::Slash),
    ("%", Sign::Percent),
    ("!", Sign::Not),
    ("&&", Sign::And),
    ("||", Sign::Or),
    ("+=", Sign::AddAssign),
    ("-=", Sign::SubtractAssign),
    ("*=", Sign::MultiplyAssign),
    ("/=", Sign::DivideAssign),
    ("%=", Sign::RemainderAssign),
    ("++", Sign::Increment),
    ("--", Sign::Decrement),
    ("...", Sign::Ellipsis),
];

/// The longest sign that a text begins with, by the table.
fn longest(text: &str) -> Found {
    let mut best = Ok(None);
    let mut len = 0;
    for (spelling, sign) in SIGNS {
        if spelling.len() > len && text.starts_with(spelling) {
            len = spelling.len();
            best = found(Token::Sign(sign), 0, len);
        }
    }
    best
}

#[test]
fn signs(rt: HostRuntime) -> Result<(), Fail> {
    for (a, _) in SIGNS {
        for (b, _) in SIGNS {
            let text = format!(in rt.alloc(); "{a}{b}")?;
            let want = if text.starts_with("//") {
                Ok(None)
            } else if text.starts_with("/*") {
                Err(LexError::OpenComment { line: 1 })
            } else {
                longest(&text)
            };
            assert_eq!(rt; first(text.as_bytes()), want, "at {text}");
        }
    }
    Ok(())
}

#[test]
fn refusals(rt: HostRuntime) {
    let cases = [
        (
            "int q[3] =\n{0, 12147483648 };",
            Some(LexError::NumberTooLarge { line: 2 }),
        ),
        (
            "    pthread_join(t[0]010 , NULL);\n",
            Some(LexError::BadNumber { line: 1 }),
        ),
        (
            "    pthread_mutex_unlock(&m[. ]);\n",
            Some(LexError::BadByte { line: 1 }),
        ),
        (
            "void f(int *c,\n ...);\n....\n",
            Some(LexError::BadByte { line: 3 }),
        ),
        ("} #define LIMIT 2\n", Some(LexError::BadLine { line: 1 })),
        (
            "#define A 1\n#define B 2\n\tint x = A; /*",
            Some(LexError::OpenComment { line: 3 }),
        ),
        (
            "#define A 1\nvoid *run(void *arg) {\n    printf(\"%d\\n\", A);\n}\n",
            None,
        ),
    ];
    for (text, want) in cases {
        assert_eq!(rt; refusal(text.as_bytes()), want, "at {text}");
    }
    assert_eq!(rt; first(b"\xff"), Err(LexError::BadByte { line: 1 }));
    assert_eq!(rt; first(b"\"\x80\""), Err(LexError::BadText { line: 1 }));
}
