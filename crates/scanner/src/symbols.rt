ghost use Rattle.scanner.specs.Tables.{table};
ghost use Rattle.syntax.specs.Lexemes.{seek, keywords, operators};
ghost use Rattle.std.specs.Prelude.{◌≡◌};

use syntax::symbol::Symbol;

// Spelling is a symbol behind its bytes.
#[derive(Clone, Copy)]
struct Spelling(&'static [u8], Symbol);

const KEYWORDS: [Spelling; 12] = [
    Spelling(b"break", Symbol::Break),
    Spelling(b"class", Symbol::Class),
    Spelling(b"else", Symbol::Else),
    Spelling(b"extends", Symbol::Extends),
    Spelling(b"final", Symbol::Final),
    Spelling(b"if", Symbol::If),
    Spelling(b"new", Symbol::New),
    Spelling(b"print", Symbol::Print),
    Spelling(b"read", Symbol::Read),
    Spelling(b"return", Symbol::Return),
    Spelling(b"void", Symbol::Void),
    Spelling(b"while", Symbol::While),
];

const OPERATORS: [Spelling; 25] = [
    Spelling(b"+", Symbol::Plus),
    Spelling(b"-", Symbol::Minus),
    Spelling(b"*", Symbol::Times),
    Spelling(b"/", Symbol::Over),
    Spelling(b"%", Symbol::Percent),
    Spelling(b"==", Symbol::Equal),
    Spelling(b"!=", Symbol::NotEqual),
    Spelling(b"<", Symbol::Less),
    Spelling(b"<=", Symbol::LessOrEqual),
    Spelling(b">", Symbol::Greater),
    Spelling(b">=", Symbol::GreaterOrEqual),
    Spelling(b"&&", Symbol::And),
    Spelling(b"||", Symbol::Or),
    Spelling(b"=", Symbol::Assign),
    Spelling(b"++", Symbol::Increment),
    Spelling(b"--", Symbol::Decrement),
    Spelling(b";", Symbol::Semicolon),
    Spelling(b",", Symbol::Comma),
    Spelling(b".", Symbol::Dot),
    Spelling(b"(", Symbol::OpenParenthesis),
    Spelling(b")", Symbol::CloseParenthesis),
    Spelling(b"[", Symbol::OpenBracket),
    Spelling(b"]", Symbol::CloseBracket),
    Spelling(b"{", Symbol::OpenBrace),
    Spelling(b"}", Symbol::CloseBrace),
];

// keyword is the keyword that a word is.
pub(crate) fn keyword(word: &[u8]) -> Option<Symbol>
    ensures { result ≡ seek keywords word.now }
{
    sought(&KEYWORDS, word)
}

// operator is the operator that bytes are.
pub(crate) fn operator(bytes: &[u8]) -> Option<Symbol>
    ensures { result ≡ seek operators bytes.now }
{
    sought(&OPERATORS, bytes)
}

// sought is the symbol that a table has for a word.
fn sought(spellings: &[Spelling], word: &[u8]) -> Option<Symbol>
    ensures { result ≡ seek (table spellings.now) word.now }
{
    spellings
        .iter()
        .find(|spelling| spelling.0 == word)
        .map(|spelling| spelling.1)
}
