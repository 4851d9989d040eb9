//! What holds of the grammar of declarations, whatever is parsed.

ghost use Rattle.std.specs.Prelude.{◌≡◌, ◌↔◌, List, [], Bool, Some, None, true};
ghost use Rattle.c_text.specs.declared.tokens.Dialect.{Dialect};
ghost use Rattle.c_text.specs.declared.tokens.Token.{Token};
ghost use Rattle.c_tree.specs.Tree.{Object, Definition};
ghost use Rattle.c_parse.specs.Reading.{front, expression_with, read};
ghost use Rattle.c_parse.specs.Objects.{begins_declaration};
ghost use Rattle.c_parse.specs.Declarations.{IsDeclaration, IsHeading, IsObject};
ghost use Rattle.c_parse.specs.DeclarationReading.{declaration_front, heading_front, object_front};

/// Tokens are a declaration that declares these objects exactly where reading them from left to right gives the objects and leaves
/// nothing. So they declare one list of objects at most.
pub fn declarations_are_read()
    ensures { (d : Dialect) (ts : List Token) (os : List Object) → IsDeclaration d ts os ↔ (declaration_front d ts ≡ Some (os, [])) }
{}

/// The same of the heading of a function.
pub fn headings_are_read()
    ensures { (d : Dialect) (ts : List Token) (h : Definition) → IsHeading d ts h ↔ (heading_front d ts ≡ Some (h, [])) }
{}

/// The same of an object at file scope, with whether it is `static`.
pub fn objects_are_read()
    ensures { (d : Dialect) (ts : List Token) (o : Object × Bool) → IsObject d ts o ↔ (object_front d ts ≡ Some (o, [])) }
{}

/// No expression begins with a word of specifiers, and every declaration does.
pub fn a_word_of_specifiers_begins_declarations()
    ensures expression { (d : Dialect) (ts : List Token) → begins_declaration (front d ts) ≡ true → expression_with (read d) ts ≡ None }
    ensures declaration { (d : Dialect) (ts : List Token) (os : List Object) → IsDeclaration d ts os → begins_declaration (front d ts) ≡ true }
{}
