//! Laws of splitting a block into trees: they do what the block does, with temporaries in slots.
ghost use Rattle.std.specs.Prelude.{◌≡◌, List, Some, ℕ, ℤ, false};
ghost use Rattle.objects.specs.declared.value.ObjectName.{ObjectName};
ghost use Rattle.objects.specs.declared.value.Value.TheVariants.{Pointer};
ghost use Rattle.forests.specs.Words.{Word, Plain, narrow};
ghost use Rattle.forests.specs.Objects.{Object};
ghost use Rattle.forests.specs.Actions.{Gave};
ghost use Rattle.forests.specs.Rows.{acts};
ghost use Rattle.forests.specs.Addresses.{Environment, local};
ghost use Rattle.forests.specs.Bodies.{Setting};
ghost use Rattle.dag_forest.specs.declared.entry.Entry.{Entry};
ghost use Rattle.dag_forest.specs.Emission.{AreOnce, Distinct, Holds, Lost, emit, no_tree};
ghost use Rattle.dag_forest.specs.Meaning.{IsTemporary, Keeps};
ghost use Rattle.dag_forest.specs.Meant.{HaveMeaning};
ghost use Rattle.dag_forest.specs.Schedules.{acts_of};
ghost use Rattle.dag_forest.specs.Slots.{Kind, slot_temporary};
ghost use Rattle.dag_forest.specs.Split.{Split};
ghost use Rattle.dag_forest.specs.Tally.{AreFormed};
ghost use Rattle.op_forest.specs.declared.frame.Slot.{Slot};
ghost use Rattle.op_forest.specs.Frames.{IsFrame};
ghost use Rattle.op_forest.specs.Nodes.{Head};
ghost use Rattle.op_forest.specs.declared.suffix.Suffix.TheVariants.{C, S};

/// A block makes each of its nodes once at most. Where some of its nodes are kept in temporaries of their
/// own, each use of a node stands in the stretch of the reads below it that aren't kept, and each call that
/// isn't kept is the last operand of the root right behind it, the trees of what the block does have its
/// meaning: from each world, with as many root steps, they do what it does.
pub fn trees_do_what_blocks_do()
    ensures once { (entries : List Entry) → AreOnce (acts_of entries) (λ m. false) }
    ensures meaning { (entries : List Entry) → (keeps : Keeps) → Distinct keeps → Holds keeps (acts_of entries) (λ m. Lost) → HaveMeaning keeps (acts_of entries) (emit keeps (acts_of entries) (λ m. no_tree)) }
{}

/// A slot of the frame is a temporary of a number of 8 or 16 bits, of a signed or unsigned number and of an
/// address: what is stored in it is read back, wherever its object is the same, and no other object changes.
pub fn slots_are_temporaries()
    ensures { (s : Setting) → (name : ObjectName) → (offset : ℤ) → local s.environment.home (Some offset) ≡ Some (Plain (Pointer name 0)) → (k : Kind) → IsTemporary s (slot_temporary s.environment.order k name offset) }
{}

/// An operator of suffix C gives no value but a number of 8 bits, and one of suffix S none but a number of 16
/// bits, as a temporary of such a node can keep.
pub fn narrow_operators_give_narrow_words()
    ensures chars { (e : Environment) → (h : Head) → (ws : List Word) → (objects : List Object) → (v : Word) → h.operator.suffix ≡ C → acts e h ws objects ≡ Gave v → (n : ℕ) × (v ≡ narrow 8 n) }
    ensures shorts { (e : Environment) → (h : Head) → (ws : List Word) → (objects : List Object) → (v : Word) → h.operator.suffix ≡ S → acts e h ws objects ≡ Gave v → (n : ℕ) × (v ≡ narrow 16 n) }
{}

/// The split of a block of which each operand is an earlier node: no two nodes have one slot, each use of a
/// node stands where its tree has the node's value, and the new slots are temporaries.
pub fn blocks_are_split()
    ensures { (before : List Slot) → IsFrame before → (entries : List Entry) → AreFormed entries 0 → Split before entries }
{}
