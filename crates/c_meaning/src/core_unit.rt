//! Checked translation units: functions, static objects, string literals and types.
ghost use Rattle.std.specs.Prelude.{◌≡◌};
ghost use Rattle.c_meaning.specs.Units.{CoreUnit, IsWhole};

use crate::core_stmt::CoreStmt;
use crate::filled_place::FilledPlace;
use c_types::{TypeId, TypeTable};
use lcc_base::{Bytes, Items};
use std::marker::Model;

/// A function's definition. Its first locals are its parameters.
#[derive(Drop)]
pub struct CoreFunction {
    pub name: Bytes,
    /// The type that its definition declares, which says whether its parameters are open; else it lists
    /// those of the first locals.
    pub of: TypeId,
    /// How many parameters it has.
    pub parameters: u32,
    /// The types of its local objects: the parameters; the others in the order in which they are
    /// declared, each in one block; and the copies of structures that its calls pass and give, in the
    /// order of the text, a call's own before those of its parts.
    pub locals: Items<TypeId>,
    pub body: CoreStmt,
}

/// An object with static storage: external, or static at file scope or in a block.
#[derive(Drop)]
pub struct CoreObject {
    /// The name that it was declared by; for an object of a block, that with a dot and a number behind it.
    pub name: Bytes,
    pub of: TypeId,
    /// The line of its first declaration.
    pub line: u32,
    /// Whether it may not be written: its type, or its elements', is const. A const member makes no object constant.
    pub constant: bool,
    /// What it holds at the start. Its other bytes are zero.
    pub places: Items<FilledPlace>,
}

/// A checked unit. It keeps that each function, object, text, local, label and type that it names is
/// there, that no two functions or objects have one name, that each expression has the operands and the
/// type of its kind, that each structure that a call passes or gives has a local of its own, that what
/// its objects hold at the start is constant, that its numbers have 32 bits and its texts are of bytes,
/// and that its functions, objects, texts, locals and statements together are fewer than 2^31.
#[derive(Drop)]
pub struct Core {
    functions: Items<CoreFunction>,
    objects: Items<CoreObject>,
    texts: Items<Bytes>,
    types: TypeTable,
    main: u32,
}

impl Model for Core {
    ghost use Rattle.c_meaning.specs.Units.{CoreUnit, IsWhole};
    ghost use Rattle.c_meaning.specs.contracts.core_unit.CoreFunction as function;
    ghost use Rattle.c_meaning.specs.contracts.core_unit.CoreObject as object;
    ghost use Rattle.std.specs.Coded.{codes};

    ghost Value = { CoreUnit };

    ghost coded = { Prim.hlevel (codes, function.the_row.coded, object.the_row.coded) };

    ghost view = { λ c. record { functions = c.functions; objects = c.objects; texts = c.texts; types = c.types; main = c.main } };

    ghost invariant = { λ c. IsWhole (record { functions = c.functions; objects = c.objects; texts = c.texts; types = c.types; main = c.main }) };
}

impl Core {
    /// The unit of these parts, without an allocation.
    pub fn new(
        functions: Items<CoreFunction>,
        objects: Items<CoreObject>,
        texts: Items<Bytes>,
        types: TypeTable,
        main: u32,
    ) -> Self
        requires { IsWhole (record { functions = functions; objects = objects; texts = texts; types = types; main = main }) }
        ensures { result ≡ record { functions = functions; objects = objects; texts = texts; types = types; main = main } }
    {
        Core {
            functions,
            objects,
            texts,
            types,
            main,
        }
    }

    /// The functions that the unit defines, in the order of their definitions.
    pub fn functions(&self) -> &[CoreFunction]
        ensures value { result.now ≡ self.now.functions }
        ensures is { IsWhole self.now }
    {
        self.functions.as_slice()
    }

    /// The objects with static storage that the unit defines, in order.
    pub fn objects(&self) -> &[CoreObject]
        ensures value { result.now ≡ self.now.objects }
        ensures is { IsWhole self.now }
    {
        self.objects.as_slice()
    }

    /// The string literals that are evaluated or stand in an initialiser, without the nulls behind
    /// them. Equal ones are one.
    pub fn texts(&self) -> &[Bytes]
        ensures value { result.now ≡ self.now.texts }
        ensures is { IsWhole self.now }
    {
        self.texts.as_slice()
    }

    /// The types that the unit names.
    pub fn types(&self) -> &TypeTable
        ensures { result.now ≡ self.now.types }
    {
        &self.types
    }

    /// The place of `main` among the functions.
    pub fn main(&self) -> u32
        ensures { result ≡ self.now.main }
    {
        self.main
    }
}
