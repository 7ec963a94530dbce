//! The numbers of marks and keywords (`docs/JAVA-PROFILE.md`, section 2).

/// `(`
pub const PAREN_OPEN: u8 = 0;

/// `)`
pub const PAREN_CLOSE: u8 = 1;

/// `{`
pub const BRACE_OPEN: u8 = 2;

/// `}`
pub const BRACE_CLOSE: u8 = 3;

/// `[`
pub const BRACKET_OPEN: u8 = 4;

/// `]`
pub const BRACKET_CLOSE: u8 = 5;

/// `;`
pub const SEMICOLON: u8 = 6;

/// `,`
pub const COMMA: u8 = 7;

/// `.`
pub const DOT: u8 = 8;

/// `=`
pub const EQUALS_SIGN: u8 = 12;

/// `?`
pub const QUESTION_MARK: u8 = 17;

/// `:`
pub const COLON: u8 = 18;

/// `-`
pub const MINUS_SIGN: u8 = 29;

/// `*`
pub const STAR: u8 = 30;

/// `abstract`
pub const WORD_ABSTRACT: u8 = 0;

/// `boolean`
pub const WORD_BOOLEAN: u8 = 2;

/// `break`
pub const WORD_BREAK: u8 = 3;

/// `char`
pub const WORD_CHAR: u8 = 7;

/// `class`
pub const WORD_CLASS: u8 = 8;

/// `continue`
pub const WORD_CONTINUE: u8 = 10;

/// `default`
pub const WORD_DEFAULT: u8 = 11;

/// `do`
pub const WORD_DO: u8 = 12;

/// `else`
pub const WORD_ELSE: u8 = 14;

/// `extends`
pub const WORD_EXTENDS: u8 = 16;

/// `final`
pub const WORD_FINAL: u8 = 17;

/// `for`
pub const WORD_FOR: u8 = 20;

/// `if`
pub const WORD_IF: u8 = 22;

/// `implements`
pub const WORD_IMPLEMENTS: u8 = 23;

/// `import`
pub const WORD_IMPORT: u8 = 24;

/// `instanceof`
pub const WORD_INSTANCEOF: u8 = 25;

/// `int`
pub const WORD_INT: u8 = 26;

/// `interface`
pub const WORD_INTERFACE: u8 = 27;

/// `long`
pub const WORD_LONG: u8 = 28;

/// `new`
pub const WORD_NEW: u8 = 30;

/// `package`
pub const WORD_PACKAGE: u8 = 31;

/// `private`
pub const WORD_PRIVATE: u8 = 32;

/// `protected`
pub const WORD_PROTECTED: u8 = 33;

/// `public`
pub const WORD_PUBLIC: u8 = 34;

/// `return`
pub const WORD_RETURN: u8 = 35;

/// `static`
pub const WORD_STATIC: u8 = 37;

/// `super`
pub const WORD_SUPER: u8 = 39;

/// `this`
pub const WORD_THIS: u8 = 42;

/// `void`
pub const WORD_VOID: u8 = 47;

/// `while`
pub const WORD_WHILE: u8 = 49;

/// The number of `instanceof` as an operator.
pub const INSTANCE_OF: u8 = 153;
