//! Laws of the rules of names, each the contract of a function that does nothing.

ghost use Rattle.jv_names.specs.Bounds.{TypeNamesStayIn, ImportsStayIn, ImportRulesStayIn, StaticsStayIn, TypeAccessStaysIn, ReferencesStayIn, WrittenTypesStayIn, FieldsStayIn, AllMethodsStayIn, MethodsStayIn, MembersAmongStayIn, MemberAccessStaysIn, SignaturesAskIn, CtorsAskIn, SupersAskIn, ResultsAskIn, SuperclassesAskIn, InstancesAskIn, BodiesAreTypes, InstanceBodiesAreTypes};
ghost use Rattle.jv_names.specs.Law.{TypeNamesReadOnlyTheirQueries, ImportsReadOnlyTheirQueries, StaticMembersReadOnlyTheirQueries, TypeAccessReadsOnlyItsQueries, FieldsReadOnlyTheirQueries, InheritedMethodsReadOnlyTheirQueries, MethodsReadOnlyTheirQueries, MethodsAboveReadOnlyTheirQueries, AllMethodsReadOnlyTheirQueries, MemberAccessReadsOnlyItsQueries, WrittenTypesReadOnlyTheirQueries, ReadSignaturesReadOnlyTheirQueries, CtorsReadOnlyTheirQueries, SupersReadOnlyTheirQueries, ResultsReadOnlyTheirQueries, SuperclassesReadOnlyTheirQueries, InstancesReadOnlyTheirQueries};

/// The meaning of the name of a type looks at a graph only by the queries that it asks.
pub fn resolve_type_reads_only_its_queries()
    ensures { TypeNamesReadOnlyTheirQueries }
{}

/// The meaning of an import looks at a graph only by the queries that it asks.
pub fn resolve_import_reads_only_its_queries()
    ensures { ImportsReadOnlyTheirQueries }
{}

/// The static members of a name that a file's static imports bring look at a graph only by the queries that they ask.
pub fn static_members_reads_only_its_queries()
    ensures { StaticMembersReadOnlyTheirQueries }
{}

/// Whether a type is accessible looks at a graph only by the queries that it asks.
pub fn type_accessible_reads_only_its_queries()
    ensures { TypeAccessReadsOnlyItsQueries }
{}

/// The field of a name looks at a graph only by the query that it asks.
pub fn find_field_reads_only_its_queries()
    ensures { FieldsReadOnlyTheirQueries }
{}

/// The methods of a name that a type declares or inherits look at a graph only by the query that they ask.
pub fn all_methods_read_only_their_queries()
    ensures { InheritedMethodsReadOnlyTheirQueries }
{}

/// The methods of a name that are members of a type look at a graph only by the queries that they ask.
pub fn find_methods_reads_only_its_queries()
    ensures { MethodsReadOnlyTheirQueries }
{}

/// The methods of a name above a type look at a graph only by the query that they ask.
pub fn find_methods_above_reads_only_its_queries()
    ensures { MethodsAboveReadOnlyTheirQueries }
{}

/// All methods of a type look at a graph only by the query that they ask.
pub fn find_all_methods_reads_only_its_queries()
    ensures { AllMethodsReadOnlyTheirQueries }
{}

/// Whether a member is accessible looks at a graph only by the queries that it asks.
pub fn accessible_reads_only_its_queries()
    ensures { MemberAccessReadsOnlyItsQueries }
{}

/// The meaning of a type that is written looks at a graph only by the queries that it asks.
pub fn resolve_written_type_reads_only_its_queries()
    ensures { WrittenTypesReadOnlyTheirQueries }
{}

/// Whatever the answers, the rules of names and of access ask from the root, packages, files and types of the layout alone,
/// never for signatures, and only for names that are numbered; where static imports are looked into, their names are numbered
/// too. What a name means is a type of the layout, and in an import on demand a type or a package. A type that is written has a
/// type of the layout as its base, or no class. What static imports bring are types, fields and methods of the layout.
pub fn rules_ask_in_the_layout()
    ensures type_names { TypeNamesStayIn }
    ensures imports { ImportsStayIn }
    ensures access { TypeAccessStaysIn }
    ensures references { ReferencesStayIn }
    ensures written_types { WrittenTypesStayIn }
    ensures import_rules { ImportRulesStayIn }
    ensures statics { StaticsStayIn }
{}

/// Whatever the answers, the rules of members ask queries of names alone, from types of the layout: the field and the methods
/// of a name in a type, and whether a member is accessible through a type. What they find are fields and methods of the layout.
/// Which methods are members is asked so in a layout whose rows name one another.
pub fn member_rules_ask_in_the_layout()
    ensures fields { FieldsStayIn }
    ensures all_methods { AllMethodsStayIn }
    ensures methods { MethodsStayIn }
    ensures members { MembersAmongStayIn }
    ensures access { MemberAccessStaysIn }
{}

/// What is read beside names looks at a graph only by the queries that it asks: signatures, constructors, supertypes, whether a
/// result fits another one, superclasses and enclosing instances.
pub fn readings_read_only_their_queries()
    ensures signatures { ReadSignaturesReadOnlyTheirQueries }
    ensures ctors { CtorsReadOnlyTheirQueries }
    ensures supers { SupersReadOnlyTheirQueries }
    ensures results { ResultsReadOnlyTheirQueries }
    ensures superclasses { SuperclassesReadOnlyTheirQueries }
    ensures instances { InstancesReadOnlyTheirQueries }
{}

/// Whatever the answers, even those that name scopes outside the layout, what is read beside names asks queries of the layout alone:
/// each starts at one of its scopes, is of one of the kinds, and asks for any name, or for one that is numbered. The types of a
/// signature have types of the layout as their bases, or no class; a constructor, supertypes and a superclass are the layout's.
pub fn readings_ask_in_the_layout()
    ensures signatures { SignaturesAskIn }
    ensures ctors { CtorsAskIn }
    ensures supers { SupersAskIn }
    ensures results { ResultsAskIn }
    ensures superclasses { SuperclassesAskIn }
    ensures instances { InstancesAskIn }
{}

/// In a layout whose rows name one another, the bodies around the header of a type are types, and so are those around what
/// stands in its body, and those of which it has an instance.
pub fn bodies_are_types()
    ensures bodies { BodiesAreTypes }
    ensures instances { InstanceBodiesAreTypes }
{}
