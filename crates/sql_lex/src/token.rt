// Tokens and their places.

use sp_value::Text;

/// What a token is, without its text.
#[derive(Clone, Copy, Debug, PartialEq, Eq)]
pub enum Kind {
    Select,
    From,
    Where,
    Join,
    Inner,
    On,
    Order,
    By,
    Asc,
    Desc,
    Limit,
    And,
    Or,
    Not,
    In,
    Is,
    Null,
    True,
    False,
    As,
    Group,
    Star,
    Comma,
    Dot,
    Open,
    Close,
    Semi,
    Equal,
    NotEqual,
    Less,
    AtMost,
    Greater,
    AtLeast,
    Name,
    Number,
    Text,
    /// A byte that begins no token, an unclosed quote, an empty quoted name, or a number out of range.
    Bad,
}

/// What a token says.
#[derive(Drop)]
pub enum Value {
    /// A reserved word or a sign, or what begins no token.
    Fixed,
    /// A name as it is compared, or a text.
    Text(Text),
    Number(i64),
}

/// A token, with the place of its first byte.
#[derive(Drop)]
pub struct Token {
    pub kind: Kind,
    pub value: Value,
    pub place: u64,
}
