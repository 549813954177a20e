//! Laws of typing: it is decided and a function, and copied structures have locals of their own.
ghost use Rattle.c_ast.specs.Trees.{DeclarationTree, DeclaratorTree, ExprTree, InitialiserTree, SpecifiersTree, TypeNameTree};
ghost use Rattle.c_meaning.specs.State.{State};
ghost use Rattle.c_meaning.specs.Typing.{typed, typed_name, typed_declared};
ghost use Rattle.c_meaning.specs.TypingRelation.{Types, TypesName, TypesDeclared};
ghost use Rattle.c_meaning.specs.Postorder.{nodes, name_nodes, declared_nodes};
ghost use Rattle.c_meaning.specs.Initialising.{Initialised, typed_initialiser};
ghost use Rattle.c_meaning.specs.Declaring.{typed_declaration};
ghost use Rattle.c_meaning.specs.DeclaringRelation.{TypesDeclaration, TypesInitialiser};
ghost use Rattle.c_meaning.specs.DeclaringNodes.{declaration_nodes, initialiser_nodes};
ghost use Rattle.c_meaning.specs.Laws.{AreAllDecided, AreDecided, CopiesAreApart, CopiesAreLocals, IsFirst, IsFirstOf, IsTyping};

/// Where no node of an expression, a type name, or specifiers and a declarator breaks a constraint or
/// passes a limit, the rows type it, and in one way only; where a node does, they do not.
pub fn typing_is_decided()
    ensures expressions { (s : State) → (e : ExprTree) → AreDecided (Types s e) (nodes s e) }
    ensures names { (s : State) → (t : TypeNameTree) → AreDecided (TypesName s t) (name_nodes s t) }
    ensures declared { (s : State) → (specs : SpecifiersTree) → (d : DeclaratorTree) → AreDecided (TypesDeclared s specs d) (declared_nodes s specs d) }
{}

/// Typing as a function gives what the rows type, and nothing else; the fault that it gives is that of
/// the first node that has one, each node behind its parts.
pub fn typing_is_a_function()
    ensures expressions { (s : State) → (e : ExprTree) → IsTyping (typed s e) (Types s e) }
    ensures names { (s : State) → (t : TypeNameTree) → IsTyping (typed_name s t) (TypesName s t) }
    ensures declared { (s : State) → (specs : SpecifiersTree) → (d : DeclaratorTree) → IsTyping (typed_declared s specs d) (TypesDeclared s specs d) }
    ensures expression_faults { (s : State) → (e : ExprTree) → IsFirst (typed s e) (nodes s e) }
    ensures name_faults { (s : State) → (t : TypeNameTree) → IsFirst (typed_name s t) (name_nodes s t) }
    ensures declared_faults { (s : State) → (specs : SpecifiersTree) → (d : DeclaratorTree) → IsFirst (typed_declared s specs d) (declared_nodes s specs d) }
{}

/// Where no node of an initialiser or a declaration breaks a constraint or passes a limit, the rows
/// type it, and in one way only; where a node does, they do not.
pub fn declaring_is_decided()
    ensures initialisers { (s : State) → (o : Initialised) → (i : InitialiserTree) → AreAllDecided (TypesInitialiser s o i) (initialiser_nodes s o i) }
    ensures declarations { (s : State) → (d : DeclarationTree) → AreAllDecided (TypesDeclaration s d) (declaration_nodes s d) }
{}

/// The typing of initialisers and declarations as a function gives what the rows type, and nothing else;
/// the fault that it gives is that of the first node that has one, each node behind its parts.
pub fn declaring_is_a_function()
    ensures initialisers { (s : State) → (o : Initialised) → (i : InitialiserTree) → IsTyping (typed_initialiser s o i) (TypesInitialiser s o i) }
    ensures declarations { (s : State) → (d : DeclarationTree) → IsTyping (typed_declaration s d) (TypesDeclaration s d) }
    ensures initialiser_faults { (s : State) → (o : Initialised) → (i : InitialiserTree) → IsFirstOf (typed_initialiser s o i) (initialiser_nodes s o i) }
    ensures declaration_faults { (s : State) → (d : DeclarationTree) → IsFirstOf (typed_declaration s d) (declaration_nodes s d) }
{}

/// Each structure that a call of a checked function passes or gives has a local of its type, behind the
/// declared ones, and no two have one.
pub fn copies_have_locals()
    ensures types { CopiesAreLocals }
    ensures places { CopiesAreApart }
{}
