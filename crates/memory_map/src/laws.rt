//! Laws of objects in a machine's memory.
ghost use Rattle.memory_map.specs.Reading.{AccessesAre, BytesAreWords, BytesStand, NumbersAreLoaded, WordsAreLoaded, WordsHaveBytes};
ghost use Rattle.memory_map.specs.Writing.{BlocksAreCopied, BytesAreWritten, ClearStays, NumbersAreStored, WordsAreStored};
ghost use Rattle.memory_map.specs.Lifetimes.{CallsAreHomed, CallsBegin, CallsEnd, HomesStay, MapsGrow, ObjectsBegin, ObjectsEnd, UnitsBegin};
ghost use Rattle.memory_map.specs.Starts.{MainBegins, MainIsHanded, UnitsAreNumbered};
ghost use Rattle.memory_map.specs.Privacy.{CallsFade, ClearFades, ClearLess, ClearNew, PrivateStays, RunsFade};
ghost use Rattle.memory_map.specs.Blocks.{ApartStands, ChangesJoin};

/// Where objects lie in memory, what forests read through a pointer is what a load from its address gives, and the bytes of that load are there.
pub fn reads_are_loads()
    ensures stand { BytesStand }
    ensures words { WordsHaveBytes }
    ensures bytes { BytesAreWords }
    ensures accesses { AccessesAre }
    ensures loaded { WordsAreLoaded }
    ensures numbers { NumbersAreLoaded }
{}

/// Behind a store through a pointer the objects lie in memory with what forests have written; and behind one where no object lies as before.
pub fn writes_are_stores()
    ensures bytes { BytesAreWritten }
    ensures clear { ClearStays }
    ensures words { WordsAreStored }
    ensures numbers { NumbersAreStored }
    ensures blocks { BlocksAreCopied }
{}

/// Objects that begin where none lies lie there, as those of a call that is entered and of a unit at the start do; and those that are left lie there on.
pub fn objects_begin_and_end()
    ensures maps { MapsGrow }
    ensures begun { ObjectsBegin }
    ensures ended { ObjectsEnd }
    ensures entered { CallsBegin }
    ensures homed { CallsAreHomed }
    ensures stay { HomesStay }
    ensures left { CallsEnd }
    ensures units { UnitsBegin }
{}

/// Addresses that are clear of objects stay clear over stores, new objects and calls; and what stands there stays.
pub fn clear_stays()
    ensures same { PrivateStays }
    ensures less { ClearLess }
    ensures begun { ClearNew }
    ensures faded { ClearFades }
    ensures runs { RunsFade }
    ensures calls { CallsFade }
{}

/// Changes of memory one behind the other are one change, and leave what stands apart.
pub fn blocks_are_copied()
    ensures joined { ChangesJoin }
    ensures apart { ApartStands }
{}

/// At the start the unit's objects lie among the data, and main's second argument is the address of a null pointer on the stack.
pub fn main_begins()
    ensures numbered { UnitsAreNumbered }
    ensures lies { MainBegins }
    ensures handed { MainIsHanded }
{}
