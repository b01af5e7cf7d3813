// Names that a program can't declare.

ghost use Rattle.std.specs.Prelude.{◌≡◌, [], ◌∷◌, ◌++◌, ◌<◌, ◌≤◌, codes, length, option_map, take, IfSome, ◌||◌, ◌&&◌, ◌+◌, ℕ, not, bytes_eq};
ghost use Rattle.std.specs.List.{list_all};
ghost use Rattle.c_lexer.specs.Classes.{is_digit, is_letter};
ghost use Rattle.c_tree.specs.Numbering.{main_name};
ghost use Rattle.c_grammar.specs.Items.{other_keywords};
ghost use Rattle.c_rules.specs.Names as spec;
ghost use Rattle.c_names.specs.Texts.{texts};

use c_tree::Mode;

/// Whether a name is a word of the library that a program may use.
fn is_library_word(name: &[u8]) -> bool
    ensures { result ≡ spec.mentions (codes "NULL" ∷ codes "printf" ∷ codes "scanf" ∷ codes "intptr_t" ∷ []) name.now }
{
    name == b"NULL".as_slice()
        || name == b"printf".as_slice()
        || name == b"scanf".as_slice()
        || name == b"intptr_t".as_slice()
}

/// Whether a name is one of the library, or begins as those of the tool and of POSIX threads do.
fn is_kept(name: &[u8]) -> bool
    ensures { result ≡ spec.is_kept name.now }
{
    name.starts_with(b"gd_")
        || name.starts_with(b"pthread_")
        || name.starts_with(b"PTHREAD_")
        || is_library_word(name)
}

/// Whether bytes are what the name of a copy ends in: `_gd` and digits.
fn is_copy_end(name: &[u8]) -> bool
    ensures { result ≡ spec.is_copy_end name.now }
{
    name.starts_with(b"_gd") && name.len() > 3 && are_digits(&name[3..])
}

fn are_digits(bytes: &[u8]) -> bool
    ensures { result ≡ list_all is_digit bytes.now }
{
    bytes.iter().all(|b| b'0' <= *b && *b <= b'9')
}

/// How many bytes stand before the end that makes a name that of a copy, where it has one.
fn original_len(name: &[u8]) -> Option<usize>
    ensures front { spec.original name.now ≡ option_map (λ len. take len name.now) result }
    ensures shorter { IfSome result (λ len. len < length name.now) }
{
    for len in 0..name.len() {
        if is_copy_end(&name[len..]) {
            return Some(len);
        }
    }
    None
}

/// Whether a name is among these words.
fn is_among(name: &[u8], words: &[&[u8]]) -> bool
    ensures { result ≡ spec.mentions (texts words.now) name.now }
{
    words.iter().any(|word| name == *word)
}

/// Whether a name is a keyword of C (ISO/IEC 9899:1999, section 6.4.1) that has no place in the
/// tool's part of C.
fn is_unused_keyword(name: &[u8]) -> bool
    ensures { result ≡ spec.mentions other_keywords name.now }
{
    let words: [&[u8]; 28] = [
        b"auto",
        b"break",
        b"case",
        b"char",
        b"const",
        b"continue",
        b"default",
        b"do",
        b"double",
        b"enum",
        b"extern",
        b"float",
        b"goto",
        b"inline",
        b"register",
        b"restrict",
        b"short",
        b"signed",
        b"sizeof",
        b"struct",
        b"switch",
        b"typedef",
        b"union",
        b"unsigned",
        b"volatile",
        b"_Bool",
        b"_Complex",
        b"_Imaginary",
    ];
    is_among(name, &words)
}

/// Whether a name is a keyword of C.
fn is_keyword(name: &[u8]) -> bool
    ensures { result ≡ spec.is_keyword name.now }
{
    let words: [&[u8]; 9] = [
        b"int", b"void", b"static", b"long", b"if", b"else", b"while", b"for", b"return",
    ];
    is_unused_keyword(name) || is_among(name, &words)
}

fn is_letter(b: u8) -> bool
    ensures { result ≡ is_letter b }
{
    b'A' <= b && b <= b'Z' || b == b'_' || b'a' <= b && b <= b'z'
}

/// Whether bytes are letters, digits and `_`.
fn are_of_names(bytes: &[u8]) -> bool
    ensures { result ≡ list_all (λ c. is_letter c || is_digit c) bytes.now }
{
    bytes
        .iter()
        .all(|b| is_letter(*b) || b'0' <= *b && *b <= b'9')
}

/// Whether bytes are a name that isn't a keyword.
fn is_plain_name(name: &[u8]) -> bool
    ensures { result ≡ spec.is_plain_name name.now }
{
    match name {
        [] => false,
        [first, rest @ ..] => is_letter(*first) && are_of_names(rest) && !is_keyword(name),
    }
}

/// Whether a name can't be declared, or only as that of a function.
pub fn is_reserved(name: &[u8]) -> bool
    ensures { result ≡ spec.is_reserved name.now }
{
    is_kept(name) || original_len(name).is_some()
}

/// Whether a name is one of which a copy may be made, if it is a function's.
fn is_original(name: &[u8]) -> bool
    ensures { result ≡ (spec.is_plain_name name.now && not (bytes_eq name.now main_name)) }
{
    is_plain_name(name) && name != b"main".as_slice()
}

/// Whether a name is one for a function of a program that may have copies.
fn names_function(name: &[u8]) -> bool
    ensures { (times : ℕ) → length name.now < times → result ≡ spec.names_function times name.now }
{
    if is_kept(name) {
        return false;
    }
    match original_len(name) {
        None => true,
        Some(len) => {
            let front = &name[..len];
            if !is_original(front) {
                return false;
            }
            names_function(front)
        }
    }
}

/// Whether a name can be declared as that of a function.
pub fn is_function_name(mode: Mode, name: &[u8]) -> bool
    ensures { result ≡ spec.is_function_name mode name.now }
{
    match mode {
        Mode::Source => !is_reserved(name),
        Mode::Any => names_function(name),
    }
}
