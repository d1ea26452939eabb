//! The codes of refusals.
ghost use Rattle.std.specs.Prelude.{◌≡◌};
ghost use Rattle.pm_head.specs.Numbers.{number_of};

/// Why a line of a session file is refused, or the input as a whole. Of a line the code of its first fault counts.
#[derive(Clone, Copy, Debug, PartialEq, Eq)]
pub enum Code {
    /// The input passes 67,108,864 bytes. It is no line's code.
    InputTooLong,
    /// A line before the op lines is missing: line 1, 2 or 3, or in a file of many rooms line 1 or one of a room's three.
    MissingLine,
    /// The line passes 1,048,576 bytes, its LF not counted.
    LineTooLong,
    /// The line is after the 100,000th op line that there may be.
    TooManyLines,
    /// The line is not UTF-8 or no JSON, or nests more than 127 lists and objects.
    NotJson,
    /// A field is absent that must be there, or of another kind.
    WrongShape,
    /// A name of a type or group is ill-formed, or a name is that of no type, mark type, client, op or kind of steps.
    UnknownName,
    /// A content expression is none, or nests more than 500 levels.
    BadExpression,
    /// A content expression mixes inline and block types, or passes 4,096 places or 1,000 states.
    MixedOrWide,
    /// There is no top type or no type `text`, `text` has attributes or content, two types have one name, or a mark is unknown.
    NoSchema,
    /// A type has a dead end.
    DeadEnd,
    /// An attribute is missing or unknown, or its value is none.
    BadAttribute,
    /// A text is empty.
    EmptyText,
    /// Marks are no set.
    NotASet,
    /// A side of a slice is deeper than its content, or a list of nodes has more than 4,294,967,295 tokens.
    OpenOrLarge,
    /// The first document is not valid or not of the top type, or the top type can't be filled.
    InvalidDocument,
    /// No earlier line of the client composed the message that the line names, or got the answer.
    NoSuchMessage,
    /// The op is not of the client's kind, an editor or a raw client, or the line is the client's 65th `cursor`.
    OpNotAllowed,
    /// There is no client or there are more than 32, or a client's name is ill-formed or repeated.
    BadClients,
    /// There is no room or there are more than 16, or a room's name is ill-formed or repeated.
    BadRooms,
    /// A line names no room.
    NoSuchRoom,
    /// A late client does not enter, or does not do so by its first line and by that alone; or another client enters.
    WrongEnter,
}

impl Code {
    /// The number by which a report tells the code, 1 to 19 and 23 to 25.
    pub fn number(self) -> u32
        ensures { result ≡ number_of self }
    {
        match self {
            Code::InputTooLong => 1,
            Code::MissingLine => 2,
            Code::LineTooLong => 3,
            Code::TooManyLines => 4,
            Code::NotJson => 5,
            Code::WrongShape => 6,
            Code::UnknownName => 7,
            Code::BadExpression => 8,
            Code::MixedOrWide => 9,
            Code::NoSchema => 10,
            Code::DeadEnd => 11,
            Code::BadAttribute => 12,
            Code::EmptyText => 13,
            Code::NotASet => 14,
            Code::OpenOrLarge => 15,
            Code::InvalidDocument => 16,
            Code::NoSuchMessage => 17,
            Code::OpNotAllowed => 18,
            Code::BadClients => 19,
            Code::BadRooms => 23,
            Code::NoSuchRoom => 24,
            Code::WrongEnter => 25,
        }
    }
}
