//! Lowered units, the input of code selection: functions as forests, objects as data, and names.
ghost use Rattle.std.specs.Prelude.{◌≡◌};
ghost use Rattle.op_forest.specs.Lowered.{LoweredUnit, IsLowered};

use crate::forest::Forest;
use lcc_base::{Bytes, Items, Order};
use std::marker::Model;

/// A function: its name's place among the names, from 0, the number of its parameter words, and
/// what it does.
#[derive(Debug, Drop)]
pub struct LoweredFunction {
    pub name: u32,
    pub words: u32,
    pub forest: Forest,
}

/// An object: its name's place among the names, from 0, its size in bytes, whether it may not be
/// written, and its contents in order.
#[derive(Debug, Drop)]
pub struct LoweredObject {
    pub name: u32,
    pub size: u32,
    pub constant: bool,
    pub items: Items<Datum>,
}

/// A part of an object's contents.
#[derive(Debug, Drop)]
pub enum Datum {
    /// These bytes.
    Bytes(Bytes),
    /// The value of a name, moved by a number of bytes. It takes 4 bytes.
    Name { name: u32, offset: i32 },
    /// A label of a function, which is told by its place among the functions, from 0. It takes 4
    /// bytes.
    Label { function: u32, label: u32 },
    /// So many zero bytes.
    Zero(u32),
}

/// A lowered unit: its functions, objects and names, and the order of bytes in memory. No two
/// names are equal; each is a name of assembly text, begins and ends with no dot, and isn't `L.`
/// with digits behind it. No two functions and objects have one name. What its forests and objects
/// name is there, and the items of an object together have its size.
#[derive(Debug, Drop)]
pub struct Lowered {
    functions: Items<LoweredFunction>,
    objects: Items<LoweredObject>,
    names: Items<Bytes>,
    order: Order,
}

impl Model for Lowered {
    ghost use Rattle.op_forest.specs.Lowered.{LoweredUnit, IsLowered};
    ghost use Rattle.op_forest.specs.contracts.lowered.LoweredFunction as function;
    ghost use Rattle.op_forest.specs.contracts.lowered.LoweredObject as object;
    ghost use Rattle.std.specs.Coded.{codes};

    ghost Value = { LoweredUnit };

    ghost coded = { Prim.hlevel (codes, function.the_row.coded, object.the_row.coded) };

    ghost view = { λ l. record { functions = l.functions; objects = l.objects; names = l.names; order = l.order } };

    ghost invariant = { λ l. IsLowered (record { functions = l.functions; objects = l.objects; names = l.names; order = l.order }) };
}

impl Lowered {
    /// The unit of these parts, without an allocation.
    pub fn new(
        functions: Items<LoweredFunction>,
        objects: Items<LoweredObject>,
        names: Items<Bytes>,
        order: Order,
    ) -> Self
        requires { IsLowered (record { functions = functions; objects = objects; names = names; order = order }) }
        ensures { result ≡ record { functions = functions; objects = objects; names = names; order = order } }
    {
        Lowered {
            functions,
            objects,
            names,
            order,
        }
    }

    /// The functions in order.
    pub fn functions(&self) -> &[LoweredFunction]
        ensures value { result.now ≡ self.now.functions }
        ensures is { IsLowered self.now }
    {
        self.functions.as_slice()
    }

    /// The objects in order.
    pub fn objects(&self) -> &[LoweredObject]
        ensures value { result.now ≡ self.now.objects }
        ensures is { IsLowered self.now }
    {
        self.objects.as_slice()
    }

    /// The names in order.
    pub fn names(&self) -> &[Bytes]
        ensures value { result.now ≡ self.now.names }
        ensures is { IsLowered self.now }
    {
        self.names.as_slice()
    }

    /// The order of bytes in memory.
    pub fn order(&self) -> Order
        ensures value { result ≡ self.now.order }
        ensures is { IsLowered self.now }
    {
        self.order
    }
}
