//! Laws of slots that the lowering takes.
ghost use Rattle.c_slots_agree.specs.Held.{OperandsAreHeld};
ghost use Rattle.c_slots_agree.specs.Laws.{SlotsAreRead, SlotsAreStored, SlotsAreTaken, SlotsStay, SlotValuesLast};

use dag_forest::narrow_operators_give_narrow_words;

/// A slot that the lowering takes is one of the frame.
pub fn slots_are_taken()
    ensures { SlotsAreTaken }
{}

/// Where a word is stored in a slot that the lowering took, the run stands behind the store, and the slot holds the word.
pub fn slots_are_stored()
    ensures { SlotsAreStored }
{
    narrow_operators_give_narrow_words();
}

/// A slot holds its word behind whatever writes slots alone that were taken later.
pub fn slots_stay()
    ensures { SlotsStay }
{}

/// A slot that is read gives its word, and no temporary of the block is in it; so a value that was saved has it still.
pub fn slots_are_read()
    ensures reads { SlotsAreRead }
    ensures values { SlotValuesLast }
{}

/// An operand that waits for another one, straight or not, has its value still where the run stands behind the save.
pub fn operands_are_held()
    ensures { OperandsAreHeld }
{
    narrow_operators_give_narrow_words();
}
