//! Laws of forests' meaning. Each function's contract is one, and nothing runs.
ghost use Rattle.std.specs.Prelude.{◌≡◌, ◌≤◌, ◌<◌, ◌⊎◌, ℕ, suc, ◌+◌, ◌^◌, bit_and, bit_or, bit_xor, Bool, true, false, IsFalse, None, Some, Option, List, [], ◌∷◌, ◌++◌, length, slice_get};
ghost use Rattle.lcc_base.specs.declared.order.Order.{Order};
ghost use Rattle.objects.specs.Arithmetic.{unary_word, binary_word};
ghost use Rattle.objects.specs.Objects.{overwritten};
ghost use Rattle.objects.specs.Values.{bits_in};
ghost use Rattle.objects.specs.declared.byte.Byte.{Byte};
ghost use Rattle.objects.specs.declared.operators.Binary.TheVariants.{And, Or, Xor, ShiftLeft, ShiftRight};
ghost use Rattle.objects.specs.declared.operators.Unary.TheVariants.{Complement};
ghost use Rattle.objects.specs.declared.value.ObjectName.{ObjectName};
ghost use Rattle.objects.specs.declared.value.Value.{Value};
ghost use Rattle.objects.specs.declared.value.Value.TheVariants.{Pointer};
ghost use Rattle.objects.specs.declared.width.Width.{Width};
ghost use Rattle.op_forest.specs.Lowered.{LoweredUnit};
ghost use Rattle.op_forest.specs.Nodes.{Head, Node, head_of};
ghost use Rattle.lcc_base.specs.Prefixes.{Starts};
ghost use Rattle.op_forest.specs.Signature.{moves};
ghost use Rattle.lcc_base.specs.Traces.{Event, output_of, depth_of};
ghost use Rattle.forests.specs.Accesses.{word_read, word_written, number_read, number_written};
ghost use Rattle.forests.specs.Addresses.{Environment};
ghost use Rattle.forests.specs.Alike.{AreAlike, touches_memory};
ghost use Rattle.forests.specs.Begun.{Begins};
ghost use Rattle.forests.specs.Bits.{bits_and, bits_or, bits_xor, bits_left, bits_right, bits_right_signed, bitwise, complemented, shifted};
ghost use Rattle.forests.specs.Bodies.{Setting, evaluate, act};
ghost use Rattle.forests.specs.Budgets.{with_calls};
ghost use Rattle.forests.specs.EachRow.{jumps};
ghost use Rattle.forests.specs.Functions.{Program};
ghost use Rattle.forests.specs.Further.{Further};
ghost use Rattle.forests.specs.Kept.{Kept};
ghost use Rattle.forests.specs.MayBe.{MayBe};
ghost use Rattle.forests.specs.Meaning.{call_of};
ghost use Rattle.forests.specs.Moving.{Goes, IsNext, IsNoJump};
ghost use Rattle.forests.specs.Nested.{calls_at, Meets};
ghost use Rattle.forests.specs.Objects.{Object, shapes, stored, stored_through, with_bytes};
ghost use Rattle.forests.specs.OneRoot.{runs_in};
ghost use Rattle.forests.specs.Reached.{Reaches};
ghost use Rattle.forests.specs.Rows.{acts};
ghost use Rattle.forests.specs.Sound.{AreInput, IsSound, IsSoundEffect, IsSoundEnvironment};
ghost use Rattle.forests.specs.SoundRuns.{IsSoundProgram};
ghost use Rattle.forests.specs.SoundUnits.{HaveData};
ghost use Rattle.forests.specs.Units.{main_world, program_of};
ghost use Rattle.forests.specs.WordBytes.{word_bytes, word_in};
ghost use Rattle.forests.specs.Words.{Word, Plain, IsWord, narrow, low_number};
ghost use Rattle.forests.specs.Worlds as worlds;

/// A word is the one that its bytes are; and one that was written through a pointer is read back
/// through it.
pub fn words_are_read_back()
    ensures bytes { (order : Order) (w : Word) → IsWord w → word_in order (word_bytes order w) ≡ w }
    ensures written { (order : Order) (w : Word) (objects new : List Object) (p : Word) → IsWord w → word_written order w objects p ≡ Some new → word_read order new p ≡ Some w }
{}

/// A number of one or two bytes that was written through a pointer is read back through it.
pub fn numbers_are_read_back()
    ensures { (order : Order) (width : Width) (w : Word) (n : ℕ) (objects new : List Object) (p : Word) → low_number (bits_in width) w ≡ Some n → number_written order width w objects p ≡ Some new → number_read order width new p ≡ Some (narrow (bits_in width) n) }
{}

/// What a bit operation or a shift makes of numbers that words may be is a number that its result may be.
/// A word may be the numbers that have its known bits; a pointer or function may be any.
pub fn known_bits_are_kept()
    ensures and { (v w u : Word) (x y : ℕ) → x < 2 ^ 32 → y < 2 ^ 32 → MayBe v x → MayBe w y → bitwise And bits_and v w ≡ Some u → MayBe u (bit_and x y) }
    ensures or { (v w u : Word) (x y : ℕ) → x < 2 ^ 32 → y < 2 ^ 32 → MayBe v x → MayBe w y → bitwise Or bits_or v w ≡ Some u → MayBe u (bit_or x y) }
    ensures xor { (v w u : Word) (x y : ℕ) → x < 2 ^ 32 → y < 2 ^ 32 → MayBe v x → MayBe w y → bitwise Xor bits_xor v w ≡ Some u → MayBe u (bit_xor x y) }
    ensures complement { (w u : Word) (x : ℕ) → IsWord w → x < 2 ^ 32 → MayBe w x → complemented w ≡ Some u → MayBe u (unary_word Complement x) }
    ensures left { (signed : Bool) (w c u : Word) (x y : ℕ) → IsWord w → x < 2 ^ 32 → MayBe w x → MayBe c y → shifted signed ShiftLeft bits_left w c ≡ Some u → MayBe u (binary_word signed ShiftLeft x y) }
    ensures right { (w c u : Word) (x y : ℕ) → IsWord w → x < 2 ^ 32 → MayBe w x → MayBe c y → shifted false ShiftRight bits_right w c ≡ Some u → MayBe u (binary_word false ShiftRight x y) }
    ensures right_signed { (w c u : Word) (x y : ℕ) → IsWord w → x < 2 ^ 32 → MayBe w x → MayBe c y → shifted true ShiftRight bits_right_signed w c ≡ Some u → MayBe u (binary_word true ShiftRight x y) }
{}

/// A call with more steps goes further: what is over stays, with the rest of the steps; what was
/// unfinished has begun with the same trace; what is stuck stays. So output only grows, and so does
/// the depth of open calls.
pub fn runs_go_further()
    ensures begins { (g : Program) (name : ℕ) (p : worlds.Point) → Begins p.world.trace (call_of g name p) }
    ensures further { (g : Program) (name left more : ℕ) (w : worlds.World) → Further left more (call_of g name (record { left = left; world = w })) (call_of g name (record { left = left + more; world = w })) }
    ensures output { (a b : List Event) → Starts a b → (rest : List ℕ) × (output_of a ++ rest ≡ output_of b) }
    ensures depth { (room : ℕ → ℕ) (calls : List ℕ) (a b : List Event) → Starts a b → depth_of room calls a ≤ depth_of room calls b }
{}

/// Each root of a body, and its end, takes one of the steps that are left; without one nothing is done.
pub fn roots_take_one_step()
    ensures root { (g : Program) (s : Setting) (whole : List Node) (t : Node) (ts : List Node) (left : ℕ) (w : worlds.World) → runs_in g s whole (t ∷ ts) (record { left = suc left; world = w }) ≡ act (with_calls s (call_of g)) whole t ts (record { left = left; world = w }) (λ js p. runs_in g s whole js p) }
    ensures end { (g : Program) (s : Setting) (whole : List Node) (left : ℕ) (w : worlds.World) → runs_in g s whole [] (record { left = suc left; world = w }) ≡ worlds.Finished None (record { left = left; world = w }) }
    ensures none { (g : Program) (s : Setting) (whole ts : List Node) (w : worlds.World) → runs_in g s whole ts (record { left = 0; world = w }) ≡ worlds.Going w }
{}

/// A call in which each body has a budget of its own, and so have open calls, is the call by steps, at
/// some number of them; and the call by steps is never ahead of one with a budget as large.
pub fn budgets_are_steps()
    ensures meets { (g : Program) (n name : ℕ) (p : worlds.Point) → Meets n (calls_at g n name p) (λ left. call_of g name (record { left = left; world = p.world })) }
    ensures reaches { (g : Program) (name left n : ℕ) (p : worlds.Point) → left ≤ n → Reaches (call_of g name (record { left = left; world = p.world })) (calls_at g n name p) }
{}

/// Objects that live before a tree or a call live behind it, with their names, sizes and constancy, and
/// no fewer were made. So what a pointer may be used for stays.
pub fn objects_keep_their_shapes()
    ensures trees { (g : Program) (s : Setting) (t : Node) (p : worlds.Point) → Kept p.world (evaluate (with_calls s (call_of g)) t p) }
    ensures calls { (g : Program) (name : ℕ) (p : worlds.Point) → Kept p.world (call_of g name p) }
{}

/// A tree goes on behind it, unless a return, a comparison or a jump is its root; and it goes on at a
/// label only where one of the last two is.
pub fn trees_go_on_behind()
    ensures next { (s : Setting) (t : Node) (p : worlds.Point) → IsFalse (moves (head_of t).operator.op) → Goes IsNext (evaluate s t p) }
    ensures no_jump { (s : Setting) (t : Node) (p : worlds.Point) → IsFalse (jumps (head_of t).operator.op) → Goes IsNoJump (evaluate s t p) }
{}

/// An operator that neither reads nor writes acts alike in objects of the same shapes, whatever their
/// bytes; and what is read is the same where the object is.
pub fn operators_act_alike()
    ensures rows { (e : Environment) (h : Head) (ws : List Word) (a b : List Object) → AreAlike a b → (touches_memory h.operator.op ≡ true → ⊥) → acts e h ws a ≡ acts e h ws b }
    ensures words { (order : Order) (a b : List Object) (name : ObjectName) (offset : ℕ) → AreAlike a b → slice_get a name.place ≡ slice_get b name.place → word_read order a (Plain (Pointer name offset)) ≡ word_read order b (Plain (Pointer name offset)) }
    ensures numbers { (order : Order) (width : Width) (a b : List Object) (name : ObjectName) (offset : ℕ) → AreAlike a b → slice_get a name.place ≡ slice_get b name.place → number_read order width a (Plain (Pointer name offset)) ≡ number_read order width b (Plain (Pointer name offset)) }
{}

/// A store leaves the shapes of all objects, and each other object as it was; and in its own object each
/// byte before and behind.
pub fn stores_leave_the_rest()
    ensures shapes { (objects : List Object) (p : Value) (new : List (Byte Word)) → shapes (stored_through objects p new) ≡ shapes objects }
    ensures objects { (objects : List Object) (o place : ℕ) (new : List (Byte Word)) (other : ℕ) → (other ≡ o → ⊥) → slice_get (stored objects o place new) other ≡ slice_get objects other }
    ensures object { (objects : List Object) (o place : ℕ) (new : List (Byte Word)) (x : Object) → slice_get objects o ≡ Some x → slice_get (stored objects o place new) o ≡ Some (with_bytes x place new) }
    ensures bytes { (place : ℕ) (new old : List (Byte Word)) (other : ℕ) → (other < place) ⊎ (place + length new ≤ other) → slice_get (overwritten place new old) other ≡ slice_get old other }
{}

/// Worlds whose words have 32 bits and whose bytes have 8, of which what isn't known is 0, stay so over
/// trees and calls, and values are such words. A unit's program starts in such a world, where its data
/// and its input are bytes.
pub fn runs_stay_sound()
    ensures trees { (g : Program) (s : Setting) (t : Node) (p : worlds.Point) → IsSoundProgram g → IsSoundEnvironment s.environment → IsSound p.world → IsSoundEffect (evaluate (with_calls s (call_of g)) t p) }
    ensures calls { (g : Program) (name : ℕ) (p : worlds.Point) → IsSoundProgram g → IsSound p.world → IsSoundEffect (call_of g name p) }
    ensures program { (u : LoweredUnit) → IsSoundProgram (program_of u) }
    ensures main { (u : LoweredUnit) (words : ℕ) (input : List ℕ) → HaveData u.objects → AreInput input → IsSound (main_world u words input) }
{}
