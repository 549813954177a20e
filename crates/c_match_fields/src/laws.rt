//! Laws of bit-fields: forests read and write them by shifts and masks of their units.
ghost use Rattle.c_match_fields.specs.FieldReads.{FieldsAreRead};
ghost use Rattle.c_match_fields.specs.Fields.{FieldsAreStored};

/// Where C reads a bit-field, forests have its number by two shifts of its unit; and where C writes one, they may read the unit,
/// whatever of it is known, clear the field's bits, set the new ones and write it.
pub fn fields_go()
    ensures read { FieldsAreRead }
    ensures stored { FieldsAreStored }
{}
