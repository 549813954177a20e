//! Objects that are made, written and read, with ample memory.
use lcc_base::{Cause, Order};
use objects::{Field, ObjectName, Purpose, Scalar, Storage, Value, Width};
use std::test::Fail;

/// A scalar of four bytes.
const WORD: Scalar = Scalar {
    width: Width::Four,
    signed: true,
};

fn at(object: ObjectName, offset: u32) -> Value {
    Value::Pointer { object, offset }
}

#[test]
fn words_are_stored(rt: HostRuntime) -> Result<(), Fail> {
    let mut storage = Storage::new(rt.alloc());
    let first = storage.make_zeroed(false, 4)?;
    let second = storage.make_unknown(false, 8)?;
    let (place, pointer) = (at(first, 0), at(second, 8));
    storage.write(Purpose::Assignment, Order::Big, Width::Four, pointer, place)?;
    assert_eq!(rt; storage.read(Order::Big, WORD, place), Ok(pointer));
    assert_eq!(rt;
        storage.read(Order::Big, WORD, at(second, 4)),
        Err(Cause::Unknown)
    );
    Ok(())
}

#[test]
fn structures_are_stored(rt: HostRuntime) -> Result<(), Fail> {
    let mut storage = Storage::new(rt.alloc());
    let source = storage.make_zeroed(false, 8)?;
    let target = storage.make_unknown(false, 8)?;
    storage.copy(Purpose::Assignment, at(source, 0), at(target, 0), 8, 4)?;
    assert_eq!(rt;
        storage.read(Order::Big, WORD, at(target, 4)),
        Ok(Value::Number(0))
    );
    storage.end(1);
    storage.clear(source)?;
    assert_eq!(rt;
        storage.read(Order::Big, WORD, at(target, 4)),
        Err(Cause::Dead)
    );
    Ok(())
}

#[test]
fn fields_are_stored(rt: HostRuntime) -> Result<(), Fail> {
    let mut storage = Storage::new(rt.alloc());
    let object = storage.make_unknown(false, 4)?;
    let field = Field {
        first: 0,
        width: 5,
        signed: true,
    };
    let place = at(object, 0);
    let value = Value::Number(0x1f);
    storage.write_field(Purpose::Assignment, Order::Little, field, value, place)?;
    assert_eq!(rt;
        storage.read_field(Order::Little, field, place),
        Ok(Value::Number(0xffff_ffff))
    );
    Ok(())
}
