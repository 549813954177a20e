//! Laws of what is read and written. Each function's contract is one, and nothing runs.
ghost use Rattle.std.specs.Prelude.{◌≡◌, ◌≤◌, ◌<◌, ◌⊎◌, ℕ, ◌+◌, ◌*◌, ◌%◌, ◌^◌, Bool, List, ◌++◌, length, map, take, drop, is_none, slice_get, Some, None, Ok};
ghost use Rattle.lcc_base.specs.declared.order.Order.{Order};
ghost use Rattle.lcc_base.specs.NumberIn.{number_in};
ghost use Rattle.objects.specs.Accesses.{read, written, bytes_through};
ghost use Rattle.objects.specs.Copies.{copied};
ghost use Rattle.objects.specs.Bytes.{known_of, value_of};
ghost use Rattle.objects.specs.Causes.{bits_from};
ghost use Rattle.objects.specs.Conversions.{converted, extended};
ghost use Rattle.objects.specs.Fields.{with_bits, with_field, field_in};
ghost use Rattle.objects.specs.NumberLaws.{by_order};
ghost use Rattle.objects.specs.Objects.{Object, Storage, overwritten, object_of, stored, next_name, with_object, ended};
ghost use Rattle.objects.specs.Scalars.{scalar_of, scalar_bytes};
ghost use Rattle.objects.specs.declared.byte.Byte.{Byte};
ghost use Rattle.objects.specs.declared.field.Field.{Field};
ghost use Rattle.objects.specs.declared.purpose.Purpose.{Purpose};
ghost use Rattle.objects.specs.declared.value.ObjectName.{ObjectName};
ghost use Rattle.objects.specs.declared.value.Value.{Value};
ghost use Rattle.objects.specs.declared.value.Value.TheVariants.{Number};
ghost use Rattle.objects.specs.declared.width.Scalar.{Scalar};
ghost use Rattle.objects.specs.declared.width.Width.TheVariants.{Two, Four};

/// What was written as a scalar of a type is read back as the value converted to it: numbers in each width
/// and order, pointers and functions too. And a word that was written by halves is the word of these.
pub fn scalars_are_read_back()
    ensures back { (order : Order) (s : Scalar) (v w : Value) → converted s v ≡ Ok w → scalar_of order s (scalar_bytes order s.width v) ≡ Ok w }
    ensures halves { (order : Order) (signed : Bool) (a b : ℕ) → scalar_of order (record { width = Four; signed = signed }) (scalar_bytes order Two (Number a) ++ scalar_bytes order Two (Number b)) ≡ Ok (Number (by_order order (a % 2 ^ 16 * 2 ^ 16 + b % 2 ^ 16) (b % 2 ^ 16 * 2 ^ 16 + a % 2 ^ 16))) }
{}

/// Bytes that were written stand there, and each other byte is as before; parts written one behind the
/// other are the whole.
pub fn bytes_are_written()
    ensures inside { (k : ℕ) (new old : List (Byte Value)) → k + length new ≤ length old → take (length new) (drop k (overwritten k new old)) ≡ new }
    ensures outside { (k : ℕ) (new old : List (Byte Value)) (j : ℕ) → (j < k) ⊎ (k + length new ≤ j) → slice_get (overwritten k new old) j ≡ slice_get old j }
    ensures joined { (k m : ℕ) (first second old : List (Byte Value)) → m ≡ k + length first → m + length second ≤ length old → overwritten m second (overwritten k first old) ≡ overwritten k (first ++ second) old }
{}

/// Which bits of a unit change where a bit-field is written: its own become the number's, each other is as
/// before.
pub fn bits_are_written()
    ensures inside { (s w new n : ℕ) → bits_from s w (with_bits s w new n) ≡ new % 2 ^ w }
    ensures below { (s w new n t v : ℕ) → t + v ≤ s → bits_from t v (with_bits s w new n) ≡ bits_from t v n }
    ensures above { (s w new n t v : ℕ) → s + w ≤ t → bits_from t v (with_bits s w new n) ≡ bits_from t v n }
{}

/// A scalar that was written through a pointer is read back through it, as the value converted to its type.
pub fn written_scalars_are_read()
    ensures { (purpose : Purpose) (order : Order) (s : Scalar) (v w : Value) (objects new : List Object) (p : Value) → written purpose order s.width v objects p ≡ Ok new → converted s v ≡ Ok w → read order s new p ≡ Ok w }
{}

/// A bit-field that was written is read back as the number of its width, whatever its unit held.
pub fn fields_are_read_back()
    ensures { (order : Order) (f : Field) (n : ℕ) (unit : List (Byte Value)) → f.first + f.width ≤ 32 → number_in order (map known_of unit) < 2 ^ 32 → number_in order (map value_of unit) < 2 ^ 32 → field_in order f (with_field order f n unit) ≡ Ok (Number (extended f.signed f.width n)) }
{}

/// What a store leaves of other objects, and of which names are alive; what the making of an object and
/// the end of others leave of each: a name that was given means the same object as long as it lives, and
/// nothing from then on.
pub fn objects_live_and_end()
    ensures others { (objects : List Object) (o place : ℕ) (new : List (Byte Value)) (name : ObjectName) → (name.place ≡ o → ⊥) → object_of (stored objects o place new) name ≡ object_of objects name }
    ensures lives { (objects : List Object) (o place : ℕ) (new : List (Byte Value)) (name : ObjectName) → is_none (object_of (stored objects o place new) name) ≡ is_none (object_of objects name) }
    ensures made { (s : Storage) (constant : Bool) (bytes : List (Byte Value)) → object_of (with_object s constant bytes).objects (next_name s (length bytes)) ≡ Some (record { made = s.made; constant = constant; bytes = bytes }) }
    ensures before { (s : Storage) (constant : Bool) (bytes : List (Byte Value)) (name : ObjectName) → name.made < s.made → object_of (with_object s constant bytes).objects name ≡ object_of s.objects name }
    ensures kept { (s : Storage) (count : ℕ) (name : ObjectName) → name.place < count → object_of (ended s count).objects name ≡ object_of s.objects name }
    ensures ended { (s : Storage) (count : ℕ) (name : ObjectName) → count ≤ name.place → object_of (ended s count).objects name ≡ None }
{}

/// A structure that was assigned has the bytes that its source had: unknown ones, and those of pointers
/// and functions too.
pub fn structures_are_copied()
    ensures { (purpose : Purpose) (objects new : List Object) (from to : Value) (size alignment : ℕ) → copied purpose objects from to size alignment ≡ Ok new → bytes_through new to size ≡ bytes_through objects from size }
{}
