//! The two files that come before those of each folder (JLS 4.3.2, 4.3.3, 7.3).

/// The source of `java.lang.Object`.
pub const OBJECT: &str =
    "package java.lang; public class Object { public boolean equals(Object o) { return true; } public int hashCode() { return 0; } public String toString() { return \"\"; } }\n";

/// The source of `java.lang.String`.
pub const STRING: &str =
    "package java.lang; public final class String { public int length() { return 0; } public char charAt(int i) { return ' '; } public boolean isEmpty() { return true; } public String concat(String s) { return s; } }\n";
