//! What might stand in a text.
ghost use Rattle.std.specs.Prelude.{◌≡◌};
ghost use Rattle.chr_check.specs.Standing.{example};

/// What might stand at a place of a text.
#[derive(Clone, Copy, PartialEq, Eq, Debug, Drop)]
pub enum Candidate {
    /// A VARIABLE.
    Variable,
    /// A NAME.
    Name,
    /// A NUMBER.
    Number,
    /// `(`
    Open,
    /// `)`
    Close,
    /// `[`
    OpenList,
    /// `]`
    CloseList,
    /// `,`
    Comma,
    /// `|`
    Bar,
    /// `@`
    Label,
    /// `\`
    Backslash,
    /// `#`
    Hash,
    /// `<=>`
    Simplifies,
    /// `==>`
    Propagates,
    /// `/`
    Slash,
    /// END
    Stop,
    /// `=`, `<` and their like.
    Relation,
    /// `+`, `*` and their like.
    Operator,
    /// The sign of a number.
    Minus,
    /// The word `passive`.
    Passive,
    /// The word `chr_constraint`.
    ChrConstraint,
    /// The word `use_module`.
    UseModule,
    /// The word `library`.
    Library,
    /// The word `chr`.
    Chr,
}

impl Candidate {
    /// A token that is one.
    pub fn example(self) -> &'static str
        ensures { result.now ≡ example self }
    {
        match self {
            Candidate::Variable => "X",
            Candidate::Name => "a",
            Candidate::Number => "1",
            Candidate::Open => "(",
            Candidate::Close => ")",
            Candidate::OpenList => "[",
            Candidate::CloseList => "]",
            Candidate::Comma => ",",
            Candidate::Bar => "|",
            Candidate::Label => "@",
            Candidate::Backslash => "\\",
            Candidate::Hash => "#",
            Candidate::Simplifies => "<=>",
            Candidate::Propagates => "==>",
            Candidate::Slash => "/",
            Candidate::Stop => ".",
            Candidate::Relation => "=",
            Candidate::Operator => "*",
            Candidate::Minus => "-",
            Candidate::Passive => "passive",
            Candidate::ChrConstraint => "chr_constraint",
            Candidate::UseModule => "use_module",
            Candidate::Library => "library",
            Candidate::Chr => "chr",
        }
    }

    /// How it is told.
    pub fn word(self) -> &'static str {
        match self {
            Candidate::Variable => "a variable",
            Candidate::Name => "a name",
            Candidate::Number => "a number",
            Candidate::Open => "`(`",
            Candidate::Close => "`)`",
            Candidate::OpenList => "`[`",
            Candidate::CloseList => "`]`",
            Candidate::Comma => "`,`",
            Candidate::Bar => "`|`",
            Candidate::Label => "`@`",
            Candidate::Backslash => "`\\`",
            Candidate::Hash => "`#`",
            Candidate::Simplifies => "`<=>`",
            Candidate::Propagates => "`==>`",
            Candidate::Slash => "`/`",
            Candidate::Stop => "`.`",
            Candidate::Relation => "a relation",
            Candidate::Operator => "an operator",
            Candidate::Minus => "`-`",
            Candidate::Passive => "`passive`",
            Candidate::ChrConstraint => "`chr_constraint`",
            Candidate::UseModule => "`use_module`",
            Candidate::Library => "`library`",
            Candidate::Chr => "`chr`",
        }
    }

    /// What is told in its stead where that may stand there too.
    pub(crate) fn wider(self) -> Option<Candidate> {
        match self {
            Candidate::Minus => Some(Candidate::Operator),
            Candidate::Passive | Candidate::ChrConstraint | Candidate::UseModule => Some(
                Candidate::Name,
            ),
            Candidate::Library | Candidate::Chr => Some(Candidate::Name),
            _ => None,
        }
    }
}

/// All of them, as they are told.
pub(crate) const CANDIDATES: [Candidate; 24] = [
    Candidate::Variable,
    Candidate::Name,
    Candidate::Number,
    Candidate::Open,
    Candidate::Close,
    Candidate::OpenList,
    Candidate::CloseList,
    Candidate::Comma,
    Candidate::Bar,
    Candidate::Label,
    Candidate::Backslash,
    Candidate::Hash,
    Candidate::Simplifies,
    Candidate::Propagates,
    Candidate::Slash,
    Candidate::Stop,
    Candidate::Relation,
    Candidate::Operator,
    Candidate::Minus,
    Candidate::Passive,
    Candidate::ChrConstraint,
    Candidate::UseModule,
    Candidate::Library,
    Candidate::Chr,
];
