//! The texts of diagnostics.

ghost use Rattle.std.specs.Prelude.{◌≡◌, ◌<◌};
ghost use Rattle.jv_diag.specs.Text.{text_of};

/// The texts in the order of their codes. Each `$` stands for an argument, one after another; a number that is no code has
/// the empty text.
const TEXTS: [&str; 62] = [
    "",
    "not UTF-8",
    "syntax error",
    "bad literal",
    "nested too deep",
    "bad token",
    "",
    "",
    "",
    "",
    "duplicate type $",
    "second constructor: overloading is not in this profile",
    "cannot find import $",
    "import $ clashes with a type of this file",
    "import $ clashes with another import",
    "",
    "$ is a type and a package",
    "$ has the name of an enclosing type",
    "duplicate field $",
    "modifiers of $",
    "cannot find type $",
    "type $ is ambiguous",
    "$ is not accessible",
    "",
    "",
    "$ depends on itself",
    "$ is not a class",
    "$ is not an interface",
    "$ is final",
    "$ is repeated",
    "header of $ waits for the header of $",
    "$: static and instance methods meet",
    "$ overrides a final method",
    "$ has weaker access",
    "$ has another result type",
    "must implement $",
    "$: overloading is not in this profile",
    "body of $",
    "no constructor without arguments in $",
    "duplicate variable $",
    "cannot find $",
    "too many paths for $",
    "cannot find method $",
    "$ is ambiguous",
    "$ is not accessible",
    "found $, need $",
    "operator $ does not take $",
    "wrong number of arguments for $",
    "$ needs an instance",
    "$ is abstract",
    "not a variable",
    "",
    "not in a loop",
    "result does not fit the method",
    "",
    "$ cannot be cast to $",
    "$ is final",
    "no enclosing instance for $",
    "defaults of $ meet",
    "$ is a static method of an interface",
    "unreachable statement",
    "missing return in $",
];

/// The text of a code, in constant time.
pub(crate) fn text_of(code: u8) -> &'static str
    requires { code < 62 }
    ensures { result.now ≡ text_of code }
{
    TEXTS[code as usize]
}
