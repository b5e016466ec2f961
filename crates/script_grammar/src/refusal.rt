//! Why a script is refused.

/// What must stand at a place.
#[derive(Clone, Copy, Debug, PartialEq, Eq)]
pub enum What {
    /// The word `ring`.
    Ring,
    /// The word `noether`.
    Noether,
    /// The word that begins a later statement.
    Statement,
    /// A name that is declared.
    Name,
    /// `=`
    Equals,
    /// `(`
    Open,
    /// `)`
    Close,
    /// `;`
    Semicolon,
    /// `,`
    Comma,
    Numeral,
    /// The letter of a variable.
    Variable,
    /// The word `ds`.
    Order,
    /// The word `redSB`.
    RedSb,
    /// The string `"sing.lib"`.
    Library,
    /// A factor of the noether monomial.
    Monomial,
    /// An operand of an expression.
    Operand,
    /// An operator, or what ends an expression.
    Operator,
    /// The name of something that is declared.
    Argument,
}

/// Why a token is refused.
#[derive(Clone, Copy, Debug, PartialEq, Eq)]
pub enum ReadKind {
    /// A byte that is no blank and in no token.
    BadByte,
    /// The end of the input where a token is needed, or within a string or a comment.
    EndOfInput,
    /// A later statement where the noether statement must stand.
    MissingNoether,
    /// The word of the 65th command.
    TooManyCommands,
    /// Another token than those that may stand there.
    Expected(What),
    /// The characteristic is not in the table.
    NotAPrime,
    /// The ninth variable.
    TooManyVariables,
    /// A declared word that is taken: a keyword, a name, or the form of a short monomial.
    NameClash,
    /// The 65th name.
    TooManyNames,
    /// A word that names nothing of the kind that is needed.
    UnknownName,
    /// An exponent above 1,000.
    ExponentTooLarge,
    /// A numeral below `/` that is 0 modulo the characteristic.
    ZeroDivisor,
    /// The 33rd parenthesis that is open at once.
    TooDeep,
    /// The noether monomial has degree 0 or above 255.
    NoetherDegree,
    /// So many monomials have at most the noether degree, more than 4,096.
    TooManyMonomials(u64),
    /// The 65th generator of an ideal.
    TooManyGenerators,
}

/// A refusal, and how many bytes are left from its place on.
#[derive(Clone, Copy, Debug, PartialEq, Eq)]
pub struct Refusal {
    pub left: usize,
    pub kind: ReadKind,
}
