//! Laws of matching objects: accesses, stores, pointers and lifetimes of C go on in forests.
ghost use Rattle.c_match_objects.specs.Accesses.{AccessesGo, CopiesGo, NumbersAreRead, NumbersAreStored, StoresGo, WordsAreRead, WordsAreStored};
ghost use Rattle.c_match_objects.specs.Lifetimes.{FlagsStay, HeldBySameHomes, HomesBegin, LeavingGoesOn, ObjectsBegin, ObjectsEnd, PrivateIsApart, SlotsHold};
ghost use Rattle.c_match_objects.specs.Pointers.{PointersAreCompared, PointersAreOrdered, PointersAreSubtracted, PointersAreTested, PointersMove, PointersMoveBack, PointersMoveOn};

/// An access of C that nothing forbids isn't forbidden in forests; and what C reads as a scalar is what forests read.
pub fn reads_go()
    ensures accesses { AccessesGo }
    ensures words { WordsAreRead }
    ensures numbers { NumbersAreRead }
{}

/// A store of C that nothing forbids isn't forbidden in forests. Behind it all objects are held, and what holds nothing of C is as before.
pub fn stores_go()
    ensures bytes { StoresGo }
    ensures words { WordsAreStored }
    ensures numbers { NumbersAreStored }
    ensures copies { CopiesGo }
{}

/// A pointer of C that is moved stands as one that forests move; and two that are ordered, subtracted or compared, and one that is
/// tested, tell the same in forests.
pub fn pointers_go()
    ensures moved { PointersMove }
    ensures on { PointersMoveOn }
    ensures back { PointersMoveBack }
    ensures ordered { PointersAreOrdered }
    ensures subtracted { PointersAreSubtracted }
    ensures compared { PointersAreCompared }
    ensures tested { PointersAreTested }
{}

/// Objects of C are held on where objects of forests that hold nothing of C begin or change, where further objects of C
/// begin in homes that have room, and where the last objects of both end.
pub fn lifetimes_go()
    ensures homes { HeldBySameHomes }
    ensures further { HomesBegin }
    ensures left { LeavingGoesOn }
    ensures begun { ObjectsBegin }
    ensures private { PrivateIsApart }
    ensures slots { SlotsHold }
    ensures flags { FlagsStay }
    ensures ended { ObjectsEnd }
{}
