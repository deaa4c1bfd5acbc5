//! Keywords, operators and delimiters.

ghost use Rattle.std.specs.Prelude.{◌≡◌, ◌∷◌, [], IfSome};
ghost use Rattle.tw_lex.specs.Symbols.{symbol_text, symbols_from};

/// A keyword, an operator or a delimiter.
#[derive(Debug, Clone, Copy, PartialEq, Eq)]
pub enum Symbol {
    /// `<->`
    Swap,
    /// `<-`
    Assign,
    /// `<`
    Less,
    /// `->`
    Arrow,
    /// `-`
    Minus,
    /// `==`
    Equal,
    /// `=`
    Define,
    /// `!=`
    NotEqual,
    /// `&&`
    And,
    /// `||`
    Or,
    /// `>`
    Greater,
    /// `(`
    OpenParen,
    /// `)`
    CloseParen,
    /// `{`
    OpenBrace,
    /// `}`
    CloseBrace,
    /// `[`
    OpenBracket,
    /// `]`
    CloseBracket,
    /// `,`
    Comma,
    /// `;`
    Semicolon,
    /// `:`
    Colon,
    /// `.`
    Dot,
    /// `+`
    Plus,
    /// `*`
    Star,
    /// `type`
    Type,
    /// `true`
    True,
    /// `false`
    False,
    /// `fun`
    Fun,
    /// `return`
    Return,
    /// `let`
    Let,
    /// `if`
    If,
    /// `else`
    Else,
    /// `with`
    With,
    /// `default`
    Default,
    /// `do`
    Do,
    /// `skip`
    Skip,
    /// `uint`
    Uint,
    /// `bool`
    Bool,
    /// `ptr`
    Ptr,
    /// `null`
    Null,
    /// `not`
    Not,
    /// `alloc`
    Alloc,
}

impl Symbol {
    /// The text of the symbol.
    pub fn text(self) -> &'static str
        ensures { result.now ≡ symbol_text self }
    {
        match self {
            Symbol::Swap => "<->",
            Symbol::Assign => "<-",
            Symbol::Less => "<",
            Symbol::Arrow => "->",
            Symbol::Minus => "-",
            Symbol::Equal => "==",
            Symbol::Define => "=",
            Symbol::NotEqual => "!=",
            Symbol::And => "&&",
            Symbol::Or => "||",
            Symbol::Greater => ">",
            Symbol::OpenParen => "(",
            Symbol::CloseParen => ")",
            Symbol::OpenBrace => "{",
            Symbol::CloseBrace => "}",
            Symbol::OpenBracket => "[",
            Symbol::CloseBracket => "]",
            Symbol::Comma => ",",
            Symbol::Semicolon => ";",
            Symbol::Colon => ":",
            Symbol::Dot => ".",
            Symbol::Plus => "+",
            Symbol::Star => "*",
            Symbol::Type => "type",
            Symbol::True => "true",
            Symbol::False => "false",
            Symbol::Fun => "fun",
            Symbol::Return => "return",
            Symbol::Let => "let",
            Symbol::If => "if",
            Symbol::Else => "else",
            Symbol::With => "with",
            Symbol::Default => "default",
            Symbol::Do => "do",
            Symbol::Skip => "skip",
            Symbol::Uint => "uint",
            Symbol::Bool => "bool",
            Symbol::Ptr => "ptr",
            Symbol::Null => "null",
            Symbol::Not => "not",
            Symbol::Alloc => "alloc",
        }
    }

    /// The symbols whose text begins with a character, the longer ones first.
    #[tactic(auto, unfolding(crate::specs::Symbols::symbols_from))]
    pub fn starting_with(first: char) -> &'static [Symbol]
        ensures { result.now ≡ symbols_from first }
    {
        match first {
            '<' => &[Symbol::Swap, Symbol::Assign, Symbol::Less],
            '-' => &[Symbol::Arrow, Symbol::Minus],
            '=' => &[Symbol::Equal, Symbol::Define],
            '!' => &[Symbol::NotEqual],
            '&' => &[Symbol::And],
            '|' => &[Symbol::Or],
            '>' => &[Symbol::Greater],
            '(' => &[Symbol::OpenParen],
            ')' => &[Symbol::CloseParen],
            '{' => &[Symbol::OpenBrace],
            '}' => &[Symbol::CloseBrace],
            '[' => &[Symbol::OpenBracket],
            ']' => &[Symbol::CloseBracket],
            ',' => &[Symbol::Comma],
            ';' => &[Symbol::Semicolon],
            ':' => &[Symbol::Colon],
            '.' => &[Symbol::Dot],
            '+' => &[Symbol::Plus],
            '*' => &[Symbol::Star],
            't' => &[Symbol::Type, Symbol::True],
            'f' => &[Symbol::False, Symbol::Fun],
            'r' => &[Symbol::Return],
            'l' => &[Symbol::Let],
            'i' => &[Symbol::If],
            'e' => &[Symbol::Else],
            'w' => &[Symbol::With],
            'd' => &[Symbol::Default, Symbol::Do],
            's' => &[Symbol::Skip],
            'u' => &[Symbol::Uint],
            'b' => &[Symbol::Bool],
            'p' => &[Symbol::Ptr],
            'n' => &[Symbol::Null, Symbol::Not],
            'a' => &[Symbol::Alloc],
            _ => &[],
        }
    }

    /// The symbol that is this character, if no other symbol begins with it.
    #[tactic(auto, unfolding(crate::specs::Symbols::symbols_from))]
    #[inline(always)]
    pub fn single(first: char) -> Option<Symbol>
        ensures only { IfSome result (λ symbol. symbols_from first ≡ symbol ∷ []) }
        ensures text { IfSome result (λ symbol. symbol_text symbol ≡ first ∷ []) }
    {
        match first {
            '>' => Some(Symbol::Greater),
            '(' => Some(Symbol::OpenParen),
            ')' => Some(Symbol::CloseParen),
            '{' => Some(Symbol::OpenBrace),
            '}' => Some(Symbol::CloseBrace),
            '[' => Some(Symbol::OpenBracket),
            ']' => Some(Symbol::CloseBracket),
            ',' => Some(Symbol::Comma),
            ';' => Some(Symbol::Semicolon),
            ':' => Some(Symbol::Colon),
            '.' => Some(Symbol::Dot),
            '+' => Some(Symbol::Plus),
            '*' => Some(Symbol::Star),
            _ => None,
        }
    }
}
