//! Laws of headers and imports, each the contract of a function that does nothing.

ghost use Rattle.jv_header.specs.Bounds.{HeadersStayIn, DependenceStaysIn, FileImportsStayIn, FileStaticsStayIn};
ghost use Rattle.jv_header.specs.Law.{DependencesReadOnlyTheirQueries, HeadersArePrograms, HeadersAreQuiet, HeadersHaveOneGraph, HeadersHaveOneGreatest, HeadersReadOnlyTheirQueries, ImportsAskForOwn, ImportsReadOnlyTheirQueries, ReferencesReadOnlyTheirQueries, StaticsReadOnlyTheirQueries};

/// The header of a type looks at a graph only by the queries that it asks.
pub fn header_reads_only_its_queries()
    ensures { HeadersReadOnlyTheirQueries }
{}

/// A reference in a header looks at a graph only by the queries that it asks.
pub fn references_read_only_their_queries()
    ensures { ReferencesReadOnlyTheirQueries }
{}

/// Whether a type depends on itself is looked up in a graph only by the queries that this asks.
pub fn depends_reads_only_its_queries()
    ensures { DependencesReadOnlyTheirQueries }
{}

/// The imports of a file look at a graph only by the queries that they ask.
pub fn imports_read_only_their_queries()
    ensures { ImportsReadOnlyTheirQueries }
{}

/// What is said of the single static imports of a file is looked up in a graph only by the queries that this asks.
pub fn statics_read_only_their_queries()
    ensures { StaticsReadOnlyTheirQueries }
{}

/// Whatever names the types of a layout extend and implement, and whatever the answers: their headers ask from scopes of the layout
/// alone and give types of it alone, so over each graph with these scopes they are a program.
pub fn headers_are_programs()
    ensures { HeadersArePrograms }
{}

/// And they look at no signature: they ask from none, follow no word to one, and give none, so they are quiet wherever edges to
/// signatures have the label of signatures.
pub fn headers_are_quiet()
    ensures { HeadersAreQuiet }
{}

/// So the supertypes of a folder are unique: two stratified pairs with one set of types have equal graphs, and at most one pair is
/// the greatest.
pub fn stratified_graphs_are_unique()
    ensures graph { HeadersHaveOneGraph }
    ensures greatest { HeadersHaveOneGreatest }
{}

/// Whatever the answers, the rules of headers and of imports ask queries of names alone: from the root, packages, files and
/// types of the layout, never for signatures, and only for names that are numbered. A header gives types of the layout, a
/// single import brings a type, and an import on demand a type or a package. What static imports bring is looked up so too.
pub fn rules_ask_in_the_layout()
    ensures headers { HeadersStayIn }
    ensures dependence { DependenceStaysIn }
    ensures imports { FileImportsStayIn }
    ensures statics { FileStaticsStayIn }
{}

/// Whatever the answers, the imports of a file ask only for types and packages that a package or a type declares itself, so
/// that what they ask depends on no row that is open when a run begins.
pub fn imports_ask_for_own()
    ensures { ImportsAskForOwn }
{}
