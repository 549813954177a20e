//! Laws of open blocks: how runs go on, which values hold, which nodes have rooms, and what fits.
ghost use Rattle.dag_seam.specs.Fitting.{FrameFits, NodeFits, RootFits, SplitAppends, SplitIsFit};
ghost use Rattle.dag_seam.specs.RoomLaws.{CallHasRoom, HandedHasNone, KeptIsMade, OnceHasNone, RoomHasCause, RoomHasKind, RoomsAreApart, RoomsAreBelow, RoomsAreFew};
ghost use Rattle.dag_seam.specs.Laws.{BlockRuns, CallGoesOn, CallHolds, FormedGoesOn, KeptOpens, KeysAreCounted, MadeGoesOn, NewIsLast, NextIsUnmade, NodeGoesOn, NodeOpens, NoneOpen, RootActs, RootGoesOn, RootHolds, RunsAppend, RunsStop, RunsUsed, TurnsAppend, ValueHolds, WaitingAppend};
ghost use Rattle.dag_seam.specs.SplitLaws.{BehindFirst};

/// What a block does with further entries is what it did, and then what these do, where it is known what waits for a root.
/// Where nothing waits, a node that is no call and a root act by themselves, and so does a call with a root behind it that
/// uses it. A new node has the next number.
pub fn blocks_go_on()
    ensures turns { TurnsAppend }
    ensures waiting { WaitingAppend }
    ensures nodes { NodeGoesOn }
    ensures roots { RootGoesOn }
    ensures calls { CallGoesOn }
    ensures made { MadeGoesOn }
    ensures unmade { NextIsUnmade }
    ensures counted { KeysAreCounted }
    ensures formed { FormedGoesOn }
    ensures last { NewIsLast }
{}

/// A run of a block goes on with one of further acts; one that is over stays as it is. And a run in which unused nodes are
/// made is one without them.
pub fn runs_go_on()
    ensures further { RunsAppend }
    ensures stopped { RunsStop }
    ensures blocks { BlockRuns }
    ensures used { RunsUsed }
{}

/// In an open block each node that is no call, and no read of a stretch that has ended, has the value that its operator
/// gives now: so in a block without entries, and behind a new node and a root. So the number of a node that is asked for
/// again stands for what its operator gives there.
pub fn values_hold()
    ensures start { NoneOpen }
    ensures again { ValueHolds }
    ensures nodes { NodeOpens }
    ensures kept { KeptOpens }
    ensures roots { RootHolds }
    ensures acted { RootActs }
    ensures calls { CallHolds }
{}

/// A node of a block has a room of its own where it is a call that isn't handed to a root; and else only where it is used
/// more than once, or behind its stretch. A room is of the kind of its node's suffix; rooms are numbered from 0, each once,
/// and there are no more than nodes.
pub fn rooms_are_needed()
    ensures calls { CallHasRoom }
    ensures causes { RoomHasCause }
    ensures handed { HandedHasNone }
    ensures once { OnceHasNone }
    ensures kinds { RoomHasKind }
    ensures made { KeptIsMade }
    ensures below { RoomsAreBelow }
    ensures apart { RoomsAreApart }
    ensures few { RoomsAreFew }
{}

/// Where each node and root of a block has the operands, the symbol and the constant that its operator needs, and no address
/// of a block is kept, its trees are well formed one by one, and are labels and jump as its roots do; they stand in front of
/// what follows. Behind the first root that is a label stand the roots behind it. A block still fits with a node or a root
/// more that fits, and in a frame of more slots.
pub fn split_trees_fit()
    ensures fit { SplitIsFit }
    ensures front { SplitAppends }
    ensures labels { BehindFirst }
    ensures nodes { NodeFits }
    ensures roots { RootFits }
    ensures frames { FrameFits }
{}
