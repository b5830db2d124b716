#![tactic(auto)]

ghost use Rattle.std.specs.Prelude.{◌≡◌};
ghost use Rattle.tokens.specs.Token.{is_sign as is_sign_of, is_name as is_name_of, sign_class};
ghost use Rattle.tokens.specs.Kinds.{shown_sign, shown, keyword_of, number_of, class_kind, key_at};

// "one of ( ) , :"
#[derive(Clone, Copy, Debug, PartialEq, Eq)]
pub enum Sign {
    Opening,
    Closing,
    Comma,
    Colon,
}

// "Keywords: flow leaf and or xor all some one loop."
#[derive(Clone, Copy, Debug, PartialEq, Eq)]
pub enum Keyword {
    Flow,
    Leaf,
    And,
    Or,
    Xor,
    All,
    Some,
    One,
    Loop,
}

// What a token is; a name's bytes stand in the text. What is wanted nowhere is `Other`.
#[derive(Clone, Copy, Debug, PartialEq, Eq)]
pub enum TokenKind {
    Sign(Sign),
    Keyword(Keyword),
    Name,
    Numeral(u8),
    Other,
}

// A token: its kind, which is none at the text's end and for a foreign byte, the place of its first byte, and the place past its last.
#[derive(Clone, Copy, Debug, PartialEq, Eq)]
pub struct Lexeme {
    pub kind: Option<TokenKind>,
    pub start: usize,
    pub end: usize,
}

impl Sign {
    // The class of its byte.
    pub fn class(self) -> u8
        ensures { result ≡ sign_class (shown_sign self) }
    {
        match self {
            Sign::Opening => 1,
            Sign::Closing => 2,
            Sign::Comma => 3,
            Sign::Colon => 4,
        }
    }
}

impl TokenKind {
    // The kind of the sign whose byte has this class.
    pub fn of_class(class: u8) -> Option<TokenKind>
        ensures { result ≡ class_kind class }
    {
        match class {
            1 => Some(TokenKind::Sign(Sign::Opening)),
            2 => Some(TokenKind::Sign(Sign::Closing)),
            3 => Some(TokenKind::Sign(Sign::Comma)),
            4 => Some(TokenKind::Sign(Sign::Colon)),
            _ => None,
        }
    }
}

impl Keyword {
    // The keyword that stands at this place among the nine.
    pub fn at(place: usize) -> Option<Keyword>
        ensures { result ≡ key_at place }
    {
        match place {
            0 => Some(Keyword::Flow),
            1 => Some(Keyword::Leaf),
            2 => Some(Keyword::And),
            3 => Some(Keyword::Or),
            4 => Some(Keyword::Xor),
            5 => Some(Keyword::All),
            6 => Some(Keyword::Some),
            7 => Some(Keyword::One),
            8 => Some(Keyword::Loop),
            _ => None,
        }
    }
}

impl Lexeme {
    pub fn is_sign(self, sign: Sign) -> bool
        ensures { result ≡ is_sign_of (shown_sign sign) (shown self.kind) }
    {
        self.kind == Some(TokenKind::Sign(sign))
    }

    pub fn is_name(self) -> bool
        ensures { result ≡ is_name_of (shown self.kind) }
    {
        self.kind == Some(TokenKind::Name)
    }

    pub fn keyword(self) -> Option<Keyword>
        ensures { result ≡ keyword_of self.kind }
    {
        match self.kind {
            Some(TokenKind::Keyword(keyword)) => Some(keyword),
            _ => None,
        }
    }

    // The number that a numeral stands for.
    pub fn numeral(self) -> Option<u8>
        ensures { result ≡ number_of self.kind }
    {
        match self.kind {
            Some(TokenKind::Numeral(n)) => Some(n),
            _ => None,
        }
    }
}
