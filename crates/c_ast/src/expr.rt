//! The syntax trees of expressions, type names, specifiers and declarators.
use crate::class::IntKind;
use crate::operator::{
    AssignOperator, BinaryOperator, MemberOperator, PostfixOperator, PrefixOperator,
};
use crate::specifier::{BasicType, Qualifier, RecordKind, Storage};
use lcc_base::{Bytes, Items};

/// An expression. Source: C89 3.3.
#[cycle(tree)]
#[derive(Drop)]
pub struct Expr {
    /// The line of its first token.
    pub line: u32,
    pub form: ExprForm,
}

/// What an expression is.
#[cycle(tree)]
#[derive(Drop)]
pub enum ExprForm {
    /// A name that is no typedef name.
    Name(Bytes),
    /// An integer constant.
    Integer { value: u32, kind: IntKind },
    /// A character constant.
    Character(i32),
    /// Adjacent string literals, at least one, and the bytes that each denotes.
    Text(Items<Bytes>),
    /// `(e)`
    Enclosed(Box<Expr>),
    /// `a[i]`
    Index(Box<Expr>, Box<Expr>),
    /// `f(a, b)`
    Call(Box<Expr>, Box<Items<Expr>>),
    /// `a.m` or `a->m`
    Member(MemberOperator, Box<Expr>, Box<Bytes>),
    /// `a++` or `a--`
    Postfix(PostfixOperator, Box<Expr>),
    /// An operator before an operand.
    Prefix(PrefixOperator, Box<Expr>),
    /// `sizeof` before an expression.
    SizeofExpr(Box<Expr>),
    /// `sizeof(T)`
    SizeofType(Box<TypeName>),
    /// `(T)e`
    Cast(Box<TypeName>, Box<Expr>),
    /// `a + b` and the like.
    Binary(BinaryOperator, Box<Expr>, Box<Expr>),
    /// `a ? b : c`
    Conditional(Box<Expr>, Box<Expr>, Box<Expr>),
    /// `a = b` and the like.
    Assign(AssignOperator, Box<Expr>, Box<Expr>),
    /// `a, b, c`: two parts or more.
    Comma(Items<Expr>),
}

/// A type's name. Source: C89 3.5.5.
#[cycle(tree)]
#[derive(Drop)]
pub struct TypeName {
    /// The line of its first token.
    pub line: u32,
    pub specifiers: Specifiers,
    /// A declarator without a name, if there is any.
    pub declarator: Option<Declarator>,
}

/// Storage classes, qualifiers and type specifiers, at least one. Source: C89 3.5.
#[cycle(tree)]
#[derive(Drop)]
pub struct Specifiers {
    /// The line of its first token.
    pub line: u32,
    pub list: Items<Specifier>,
}

/// A storage class, a qualifier or a type specifier. Source: C89 3.5.1 to 3.5.3.
#[cycle(tree)]
#[derive(Drop)]
pub struct Specifier {
    /// The line of its first token.
    pub line: u32,
    pub form: SpecifierForm,
}

/// What a specifier is.
#[cycle(tree)]
#[derive(Drop)]
pub enum SpecifierForm {
    Storage(Storage),
    Qualifier(Qualifier),
    Basic(BasicType),
    /// A structure or union with its members, at least one line of them.
    Record {
        kind: RecordKind,
        tag: Option<Bytes>,
        members: Items<Member>,
    },
    /// A structure or union by its tag.
    RecordTag {
        kind: RecordKind,
        tag: Bytes,
    },
    /// An enumeration with its enumerators, at least one; a comma may stand behind the last.
    Enum {
        tag: Option<Bytes>,
        enumerators: Items<Enumerator>,
        comma: bool,
    },
    /// An enumeration by its tag.
    EnumTag(Bytes),
    /// A typedef name.
    Named(Bytes),
}

/// A line of members, at least one. Source: C89 3.5.2.1.
#[cycle(tree)]
#[derive(Drop)]
pub struct Member {
    /// The line of its first token.
    pub line: u32,
    pub specifiers: Specifiers,
    pub declarators: Items<MemberDeclarator>,
}

/// A member: its declarator, or its width, or both. Source: C89 3.5.2.1.
#[cycle(tree)]
#[derive(Drop)]
pub struct MemberDeclarator {
    /// The line of its first token.
    pub line: u32,
    pub declarator: Option<Declarator>,
    pub width: Option<Expr>,
}

/// An enumerator, perhaps with its value. Source: C89 3.5.2.2.
#[cycle(tree)]
#[derive(Drop)]
pub struct Enumerator {
    /// The line of its first token.
    pub line: u32,
    pub name: Bytes,
    pub value: Option<Expr>,
}

/// A declarator, with or without a name. Source: C89 3.5.4 and 3.5.5.
#[cycle(tree)]
#[derive(Drop)]
pub struct Declarator {
    /// The line of its first token.
    pub line: u32,
    /// The qualifiers behind each `*`.
    pub pointers: Items<Items<Qualifier>>,
    pub core: DeclaratorCore,
    pub suffixes: Items<Suffix>,
}

/// What stands between a declarator's pointers and its suffixes.
#[cycle(tree)]
#[derive(Drop)]
pub enum DeclaratorCore {
    /// The declared name.
    Declared(Bytes),
    /// A declarator in parentheses.
    Parentheses(Box<Declarator>),
    /// Nothing, in a declarator without a name.
    Omitted,
}

/// A declarator's suffix: an array's or a function's. Source: C89 3.5.4.2 and 3.5.4.3.
#[cycle(tree)]
#[derive(Drop)]
pub struct Suffix {
    /// The line of its first token.
    pub line: u32,
    pub form: SuffixForm,
}

/// What a suffix is.
#[cycle(tree)]
#[derive(Drop)]
pub enum SuffixForm {
    /// `[n]` or `[]`
    Array(Option<Expr>),
    /// A prototype's parameters, at least one, perhaps with `...` behind them.
    Parameters {
        parameters: Items<Parameter>,
        more: bool,
    },
    /// The names of the parameters, at least one.
    Names(Items<Bytes>),
    /// `()`
    Empty,
}

/// A prototype's parameter. Source: C89 3.5.4.3.
#[cycle(tree)]
#[derive(Drop)]
pub struct Parameter {
    /// The line of its first token.
    pub line: u32,
    pub specifiers: Specifiers,
    /// A declarator with or without a name, if there is any.
    pub declarator: Option<Declarator>,
}
