//! What the grammar and the load imply: at most one tree derives from shallow terminals, and the readers of `specs/` find
//! it.

ghost use Rattle.std.specs.Prelude.{ℕ};
ghost use Rattle.jv_tree.specs.declared.name.Ident.{Ident as Identifier};
ghost use Rattle.jv_grammar.specs.ExprExample.{ExpressionsAreToldApart};
ghost use Rattle.jv_grammar.specs.Law.{
  ExpressionsDeriveOnce,
  InitializersDeriveOnce,
  TypesDeriveOnce,
  ReadersFindExpressions,
  ReadersFindInitializers,
  ReadExpressionsDerive,
  ReadInitializersDerive,
  ReadTypesDerive,
  DerivedExpressionsAreShaped,
  DerivedEffectsAreEffects,
};
ghost use Rattle.jv_grammar.specs.FileExample.{FilesAreToldApart};
ghost use Rattle.jv_grammar.specs.BeginsExample.{BeginningsAreToldApart};
ghost use Rattle.jv_grammar.specs.FileLaw.{
  ReadersFindTrees,
  ReadTreesDerive,
  RefusedFilesDeriveNothing,
  AtMostOneTreeDerives,
  DerivedTreesAreShaped,
  ShallowFilesHaveFewPairs,
  ReadersFindShallowTrees,
  ShallowFilesDeriveOnce,
};
ghost use Rattle.jv_grammar.specs.LoadLaw.{
  FirstDeepIsOne,
  IsShallowOrDeep,
  ShallowLoadsAreLow,
  FrontsAreShallow,
  ShallowHasFewBrackets,
};
ghost use Rattle.jv_grammar.specs.RefusedLaw.{
  DerivedFilesBegin,
  FrontsBegin,
  RefusedFilesAreRefusedThere,
  RefusedPlaceIsOne,
};
ghost use Rattle.jv_grammar.specs.PlaceLaw.{TypesRiseByPlace, MembersRiseByPlace};
ghost use Rattle.jv_grammar.specs.NestingLaw.{
  TypesHaveFewPairs,
  ExpressionsHaveFewPairs,
  InitializersHaveFewPairs,
  StatementsHaveFewPairs,
  ExpressionsAreNotDeep,
  InitializersAreNotDeep,
  StatementsAreNotDeep,
  FilesAreNotDeep,
  ExpressionsNestByTheLoad,
  InitializersNestByTheLoad,
  StatementsNestByTheLoad,
  FilesNestByTheLoad,
  FewLevelsReadExpressions,
  FewLevelsReadInitializers,
  FewLevelsReadStatements,
  FewLevelsReadFiles,
};

/// Shallow terminals derive at most one expression, one initializer and one type.
pub fn expressions_derive_once()
    ensures expressions { ExpressionsDeriveOnce }
    ensures initializers { InitializersDeriveOnce }
    ensures types { TypesDeriveOnce }
{}

/// Where shallow terminals derive an expression or an initializer, the readers give it.
pub fn readers_find_expressions()
    ensures expressions { ReadersFindExpressions }
    ensures initializers { ReadersFindInitializers }
{}

/// Whatever the readers give derives, and has the shape of the grammar.
pub fn read_expressions_derive()
    ensures expressions { ReadExpressionsDerive }
    ensures initializers { ReadInitializersDerive }
    ensures types { ReadTypesDerive }
{}

/// What derives from shallow terminals has the shape of the grammar.
pub fn derived_expressions_are_shaped()
    ensures expressions { DerivedExpressionsAreShaped }
    ensures effects { DerivedEffectsAreEffects }
{}

/// Examples: chains, casts, minimum literals, names and calls, assignments, new arrays, `instanceof` and lists.
pub fn expressions_are_told_apart()
    ensures { (a b c : Identifier) (p q r s u v w : ℕ) → ExpressionsAreToldApart a b c p q r s u v w }
{}

/// Whatever the reader gives derives, and has the shape of the grammar. Where no type has more than 200 pairs of
/// brackets, the reader gives whatever derives, and refuses nothing that derives.
pub fn readers_find_trees()
    ensures derive { ReadTreesDerive }
    ensures find { ReadersFindTrees }
    ensures none { RefusedFilesDeriveNothing }
{}

/// Where no type has more than 200 pairs of brackets, at most one tree derives, and it has the shape of the grammar.
pub fn at_most_one_tree_derives()
    ensures one { AtMostOneTreeDerives }
    ensures shaped { DerivedTreesAreShaped }
{}

/// No type that derives from shallow terminals has more than 200 pairs of brackets. So they derive at most one tree, which
/// the reader gives.
pub fn shallow_files_derive_once()
    ensures few { ShallowFilesHaveFewPairs }
    ensures find { ReadersFindShallowTrees }
    ensures once { ShallowFilesDeriveOnce }
{}

/// Examples: packages, imports, headers, fields, methods, constructors with and without a call of `super`, interfaces and
/// their constants, and terminals that derive no file.
pub fn files_are_told_apart()
    ensures { (a b c : Identifier) (p q : ℕ) → FilesAreToldApart a b c p q }
{}

/// Terminals are shallow, or just one of them is the first deep one.
pub fn first_deep_is_one()
    ensures one { FirstDeepIsOne }
    ensures either { IsShallowOrDeep }
{}

/// A load of 201 is never passed by: the loads of shallow terminals are at most 200.
pub fn shallow_loads_are_low()
    ensures { ShallowLoadsAreLow }
{}

/// Each front of shallow terminals is shallow, though the load of its last terminal may depend on the one behind it.
pub fn fronts_are_shallow()
    ensures { FrontsAreShallow }
{}

/// In shallow terminals no more than 200 pairs of square brackets follow one another, whatever stands in them.
pub fn shallow_has_few_brackets()
    ensures { ShallowHasFewBrackets }
{}

/// No type that derives from shallow terminals has more than 200 pairs of brackets.
pub fn shallow_terminals_have_few_brackets()
    ensures types { TypesHaveFewPairs }
    ensures expressions { ExpressionsHaveFewPairs }
    ensures initializers { InitializersHaveFewPairs }
    ensures statements { StatementsHaveFewPairs }
{}

/// What derives nests at most twice as deep as the highest load of the terminals says.
pub fn derivations_nest_by_the_load()
    ensures expressions { ExpressionsAreNotDeep }
    ensures initializers { InitializersAreNotDeep }
    ensures statements { StatementsAreNotDeep }
    ensures files { FilesAreNotDeep }
{}

/// What derives from shallow terminals nests at most twice as deep as their highest load says: readers that may nest so
/// deep give it.
pub fn nesting_is_bounded_by_the_load()
    ensures expressions { ExpressionsNestByTheLoad }
    ensures initializers { InitializersNestByTheLoad }
    ensures statements { StatementsNestByTheLoad }
    ensures files { FilesNestByTheLoad }
{}

/// Readers that may nest 400 levels deep give whatever derives from shallow terminals.
pub fn readers_need_few_levels()
    ensures expressions { FewLevelsReadExpressions }
    ensures initializers { FewLevelsReadInitializers }
    ensures statements { FewLevelsReadStatements }
    ensures files { FewLevelsReadFiles }
{}

/// What derives a file begins one, and so does each front of shallow terminals that begin one.
pub fn fronts_begin()
    ensures derived { DerivedFilesBegin }
    ensures fronts { FrontsBegin }
{}

/// Where readers that may nest 400 levels deep refuse a terminal of shallow ones, those before it begin a file, and with it
/// they do not. There is no more than one such place.
pub fn refused_files_are_refused_there()
    ensures there { RefusedFilesAreRefusedThere }
    ensures one { RefusedPlaceIsOne }
{}

/// Examples: an open class, a field without a name, and a sum that is no statement, though it begins one.
pub fn beginnings_are_told_apart()
    ensures { (a b : Identifier) (p q : ℕ) → BeginningsAreToldApart a b p q }
{}

/// Where terminals rise by place, so do the types of a file that derives from them, nested ones too, in the order in which
/// its tree lists them, and so do its members.
pub fn declarations_rise_by_place()
    ensures types { TypesRiseByPlace }
    ensures members { MembersRiseByPlace }
{}
