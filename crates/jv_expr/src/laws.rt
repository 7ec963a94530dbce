//! Laws of what is checked of bodies, each the contract of a function that does nothing.

ghost use Rattle.jv_expr.specs.Bounds.{ConstructorsAskIn, FieldsAskIn, MethodsAskIn};
ghost use Rattle.jv_expr.specs.Law.{BodiesReadOnlyTheirQueries, ComparisonsReadOnlyTheirQueries, ConversionsReadOnlyTheirQueries, InterfacesAreKnown};
ghost use Rattle.jv_expr.specs.Marks.{OperatorsAreMarks};

/// Whatever the answers, even those that name scopes outside the layout, the initializer of a field asks queries of the layout alone:
/// each starts at one of its scopes, is of one of the kinds, and asks for any name, or for one that is numbered.
pub fn fields_ask_in_the_layout()
    ensures { FieldsAskIn }
{}

/// So does the body of a method.
pub fn methods_ask_in_the_layout()
    ensures { MethodsAskIn }
{}

/// And so does a constructor.
pub fn constructors_ask_in_the_layout()
    ensures { ConstructorsAskIn }
{}

/// What is checked of fields, methods and constructors looks at a graph only by the queries that it asks.
pub fn bodies_read_only_their_queries()
    ensures { BodiesReadOnlyTheirQueries }
{}

/// Whether a value may be assigned to a variable looks at a graph only by the queries that it asks.
pub fn fits_reads_only_its_queries()
    ensures { ConversionsReadOnlyTheirQueries }
{}

/// So does what decides whether one of two types may be cast to the other.
pub fn sides_reads_only_its_queries()
    ensures { ComparisonsReadOnlyTheirQueries }
{}

/// Whatever supertypes are read of an interface that is compared with `Object`, they decide no more than what is known of it without a
/// query.
pub fn interfaces_are_known()
    ensures { InterfacesAreKnown }
{}

/// The number of each operator is that of its mark in the lexer's table; that of `instanceof` is its keyword's and 128, `op=` has the
/// mark of its operator with `=` behind, and no mark has the number of an index.
pub fn operators_are_marks()
    ensures { OperatorsAreMarks }
{}
