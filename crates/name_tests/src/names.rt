//! Names in force while C is read, and symbols by scopes.
use c_symbols::{Declare, Scopes, Storage, Symbol};
use names_in_force::Names;
use std::alloc::Global;
use std::test::Fail;

/// A typedef name T, and in the scope of a parameter list another T and a typedef name U.
fn parameters(alloc: Global) -> Result<Names, Fail> {
    let mut names = Names::new(alloc)?;
    names.put(b"T", true)?;
    names.open()?;
    names.put(b"T", false)?;
    names.put(b"U", true)?;
    Ok(names)
}

#[test]
fn names_of_parameters_come_back(rt: HostRuntime) -> Result<(), Fail> {
    let mut names = parameters(rt.alloc())?;
    names.keep()?;
    assert_eq!(rt;
        (names.is_typedef(b"T"), names.is_typedef(b"U")),
        (true, false)
    );
    names.reopen()?;
    assert_eq!(rt;
        (names.is_typedef(b"T"), names.is_typedef(b"U")),
        (false, true)
    );
    names.close();
    assert_eq!(rt;
        (names.is_typedef(b"T"), names.is_typedef(b"U")),
        (true, false)
    );
    Ok(())
}

fn symbol(class: Storage, line: u32) -> Symbol {
    Symbol {
        class,
        of: 6,
        line,
        level: 0,
        value: None,
    }
}

#[test]
fn a_scope_comes_back(rt: HostRuntime) -> Result<(), Fail> {
    let mut scopes = Scopes::new(rt.alloc())?;
    let outer = scopes.declare(b"x", symbol(Storage::Extern, 1))?;
    scopes.enter()?;
    let inner = scopes.declare(b"x", symbol(Storage::Auto, 4))?;
    let names = scopes.close();
    assert_eq!(rt; scopes.find(b"x"), Some(outer));
    scopes.reopen(names)?;
    assert_eq!(rt; scopes.find(b"x"), Some(inner));
    assert_eq!(rt; scopes.symbol(inner).line, 4);
    Ok(())
}

#[test]
fn a_linked_name_is_found(rt: HostRuntime) -> Result<(), Fail> {
    let mut scopes = Scopes::new(rt.alloc())?;
    let f = scopes.link(b"f", symbol(Storage::Extern, 1))?;
    assert_eq!(rt; scopes.linked(b"f"), Some(f));
    assert_eq!(rt;
        scopes.link(b"f", symbol(Storage::Extern, 2)),
        Err(Declare::Redeclared { old: f })
    );
    Ok(())
}
