//! The words of instructions and directives.
ghost use Rattle.std.specs.Prelude.{◌≡◌, ◌≢◌, IfSome, IfNone};
ghost use Rattle.asm_lines.specs.Words.{word_of, directive_text};
ghost use Rattle.asm_lines.specs.declared.mnemonic.Mnemonic.{Mnemonic as Mnemonics};
ghost use Rattle.asm_lines.specs.declared.mnemonic.DirectiveWord.{DirectiveWord as DirectiveWords};

use crate::operator::{BinaryOp, Condition, LoadOp, StoreOp, UnaryOp};

/// What an instruction begins with.
#[derive(Clone, Copy, Debug, PartialEq, Eq)]
pub enum Mnemonic {
    /// `la`
    LoadAddress,
    /// `li`
    LoadNumber,
    /// `move`
    Move,
    /// `negu` and `not`
    Unary(UnaryOp),
    /// `addu` and the like
    Binary(BinaryOp),
    /// `lw` and the like
    Load(LoadOp),
    /// `sw` and the like
    Store(StoreOp),
    /// `b`
    Branch,
    /// `beq` and the like
    BranchIf(Condition),
    /// `j`
    Jump,
    /// `jal`
    Call,
}

/// What a directive begins with.
#[derive(Clone, Copy, Debug, PartialEq, Eq)]
pub enum DirectiveWord {
    /// `.text`
    Text,
    /// `.data`
    Data,
    /// `.globl`
    Global,
    /// `.align`
    Align,
    /// `.word`
    Word,
    /// `.half`
    Half,
    /// `.byte`
    Byte,
    /// `.space`
    Space,
}

/// The word of a mnemonic.
pub fn mnemonic_word(mnemonic: Mnemonic) -> &'static [u8]
    ensures { result.now ≡ word_of mnemonic }
{
    match mnemonic {
        Mnemonic::LoadAddress => b"la",
        Mnemonic::LoadNumber => b"li",
        Mnemonic::Move => b"move",
        Mnemonic::Unary(op) => unary_word(op),
        Mnemonic::Binary(op) => binary_word(op),
        Mnemonic::Load(op) => load_word(op),
        Mnemonic::Store(op) => store_word(op),
        Mnemonic::Branch => b"b",
        Mnemonic::BranchIf(condition) => condition_word(condition),
        Mnemonic::Jump => b"j",
        Mnemonic::Call => b"jal",
    }
}

fn unary_word(op: UnaryOp) -> &'static [u8]
    ensures { result.now ≡ word_of (Mnemonic.Unary op) }
{
    match op {
        UnaryOp::Negate => b"negu",
        UnaryOp::Not => b"not",
    }
}

fn binary_word(op: BinaryOp) -> &'static [u8]
    ensures { result.now ≡ word_of (Mnemonic.Binary op) }
{
    match op {
        BinaryOp::Add => b"addu",
        BinaryOp::Subtract => b"subu",
        BinaryOp::Multiply => b"mul",
        BinaryOp::Divide => b"div",
        BinaryOp::Remainder => b"rem",
        BinaryOp::DivideUnsigned => b"divu",
        BinaryOp::RemainderUnsigned => b"remu",
        BinaryOp::And => b"and",
        BinaryOp::Or => b"or",
        BinaryOp::Xor => b"xor",
        BinaryOp::ShiftLeft => b"sll",
        BinaryOp::ShiftRight => b"srl",
        BinaryOp::ShiftRightArithmetic => b"sra",
    }
}

fn load_word(op: LoadOp) -> &'static [u8]
    ensures { result.now ≡ word_of (Mnemonic.Load op) }
{
    match op {
        LoadOp::Byte => b"lb",
        LoadOp::ByteUnsigned => b"lbu",
        LoadOp::Half => b"lh",
        LoadOp::HalfUnsigned => b"lhu",
        LoadOp::Word => b"lw",
    }
}

fn store_word(op: StoreOp) -> &'static [u8]
    ensures { result.now ≡ word_of (Mnemonic.Store op) }
{
    match op {
        StoreOp::Byte => b"sb",
        StoreOp::Half => b"sh",
        StoreOp::Word => b"sw",
    }
}

fn condition_word(condition: Condition) -> &'static [u8]
    ensures { result.now ≡ word_of (Mnemonic.BranchIf condition) }
{
    match condition {
        Condition::Equal => b"beq",
        Condition::NotEqual => b"bne",
        Condition::Less => b"blt",
        Condition::LessEqual => b"ble",
        Condition::Greater => b"bgt",
        Condition::GreaterEqual => b"bge",
        Condition::LessUnsigned => b"bltu",
        Condition::LessEqualUnsigned => b"bleu",
        Condition::GreaterUnsigned => b"bgtu",
        Condition::GreaterEqualUnsigned => b"bgeu",
    }
}

/// The word of a directive.
pub fn directive_word(directive: DirectiveWord) -> &'static [u8]
    ensures { result.now ≡ directive_text directive }
{
    match directive {
        DirectiveWord::Text => b".text",
        DirectiveWord::Data => b".data",
        DirectiveWord::Global => b".globl",
        DirectiveWord::Align => b".align",
        DirectiveWord::Word => b".word",
        DirectiveWord::Half => b".half",
        DirectiveWord::Byte => b".byte",
        DirectiveWord::Space => b".space",
    }
}

/// The mnemonics, those of one length behind those of fewer bytes.
const MNEMONICS: [Mnemonic; 39] = [
    Mnemonic::Branch,
    Mnemonic::Jump,
    Mnemonic::LoadAddress,
    Mnemonic::LoadNumber,
    Mnemonic::Load(LoadOp::Word),
    Mnemonic::Store(StoreOp::Word),
    Mnemonic::Load(LoadOp::Byte),
    Mnemonic::Load(LoadOp::Half),
    Mnemonic::Store(StoreOp::Byte),
    Mnemonic::Store(StoreOp::Half),
    Mnemonic::Binary(BinaryOp::Or),
    Mnemonic::Call,
    Mnemonic::Unary(UnaryOp::Not),
    Mnemonic::Binary(BinaryOp::Multiply),
    Mnemonic::Binary(BinaryOp::Divide),
    Mnemonic::Binary(BinaryOp::Remainder),
    Mnemonic::Binary(BinaryOp::And),
    Mnemonic::Binary(BinaryOp::Xor),
    Mnemonic::Binary(BinaryOp::ShiftLeft),
    Mnemonic::Binary(BinaryOp::ShiftRight),
    Mnemonic::Binary(BinaryOp::ShiftRightArithmetic),
    Mnemonic::Load(LoadOp::ByteUnsigned),
    Mnemonic::Load(LoadOp::HalfUnsigned),
    Mnemonic::BranchIf(Condition::Equal),
    Mnemonic::BranchIf(Condition::NotEqual),
    Mnemonic::BranchIf(Condition::Less),
    Mnemonic::BranchIf(Condition::LessEqual),
    Mnemonic::BranchIf(Condition::Greater),
    Mnemonic::BranchIf(Condition::GreaterEqual),
    Mnemonic::Move,
    Mnemonic::Unary(UnaryOp::Negate),
    Mnemonic::Binary(BinaryOp::Add),
    Mnemonic::Binary(BinaryOp::Subtract),
    Mnemonic::Binary(BinaryOp::DivideUnsigned),
    Mnemonic::Binary(BinaryOp::RemainderUnsigned),
    Mnemonic::BranchIf(Condition::LessUnsigned),
    Mnemonic::BranchIf(Condition::LessEqualUnsigned),
    Mnemonic::BranchIf(Condition::GreaterUnsigned),
    Mnemonic::BranchIf(Condition::GreaterEqualUnsigned),
];

const DIRECTIVES: [DirectiveWord; 8] = [
    DirectiveWord::Text,
    DirectiveWord::Data,
    DirectiveWord::Global,
    DirectiveWord::Align,
    DirectiveWord::Word,
    DirectiveWord::Half,
    DirectiveWord::Byte,
    DirectiveWord::Space,
];

/// The mnemonic of this word.
pub(crate) fn mnemonic_at(word: &[u8]) -> Option<Mnemonic>
    ensures some { IfSome result (λ m. word.now ≡ word_of m) }
    ensures none { IfNone result ((m : Mnemonics) → word_of m ≢ word.now) }
{
    for mnemonic in MNEMONICS {
        if mnemonic_word(mnemonic) == word {
            return Some(mnemonic);
        }
    }
    None
}

/// The directive of this word.
pub(crate) fn directive_at(word: &[u8]) -> Option<DirectiveWord>
    ensures some { IfSome result (λ d. word.now ≡ directive_text d) }
    ensures none { IfNone result ((d : DirectiveWords) → directive_text d ≢ word.now) }
{
    for directive in DIRECTIVES {
        if directive_word(directive) == word {
            return Some(directive);
        }
    }
    None
}
