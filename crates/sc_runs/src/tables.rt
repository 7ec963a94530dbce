//! Folders as texts, with the reports that are written of them. The lines are written by hand from the rules of Java and of
//! `docs/JAVA-PROFILE.md`; of several folders each but the last has a line `==` behind it.

/// Small folders: without a file or a fault, and with faults of headers and of members.
pub(crate) const SMALL: &str = "\
=>
ok files 0 types 0
==
-- A.java
class A extends B {}
-- B.java
class B {}
=>
ok files 2 types 2
==
-- A.java
class A extends X {}\r
class B extends A {}\rclass C extends Y {}
=>
A.java:1:17: E20 cannot find type X
A.java:3:17: E20 cannot find type Y
errors 2
==
-- A.java
class A extends B {}
-- B.java
class B extends A {}
=>
A.java:1:7: E25 A depends on itself
B.java:1:7: E25 B depends on itself
errors 2
==
-- A.java
class A extends B.C {}
-- B.java
class B extends A { static class C {} }
=>
A.java:1:17: E30 header of A waits for the header of A
errors 1
==
-- A.java
class A { public void m() {} } class B extends A { void m() {} }
=>
A.java:1:57: E33 m has weaker access
errors 1
";

/// A folder of no source.
pub(crate) const NO_SOURCE: &str = "\
-- A.jav
class A {}
=>
ok files 0 types 0
";

/// Headers that name types (JLS 6.5.5, 8.1.4, 8.1.5, 9.1.3).
pub(crate) const HEADERS: &str = "\
-- A.java
class A extends P.Q {} class R { static class S {} }
-- P.java
class P extends R.S { static class Q {} }
=>
ok files 2 types 5
==
-- A.java
class A extends B {}
=>
A.java:1:17: E20 cannot find type B
errors 1
==
-- A.java
class S { static class N {} } class A extends S {} class B extends A.N {}
=>
ok files 1 types 4
==
-- A.java
interface I { class N {} } interface J { class N {} } class A implements I, J {} class B extends A.N {}
=>
A.java:1:98: E21 type A.N is ambiguous
errors 1
==
-- A.java
class a {} class A extends a.B {}
-- a/B.java
package a; public class B {}
=>
A.java:1:28: E20 cannot find type a.B
errors 1
==
-- A.java
class A extends a.B {}
-- a/B.java
package a; public class B {}
=>
ok files 2 types 2
==
-- a/A.java
package a; class A {}
-- b/B.java
package b; class B extends a.A {}
=>
b/B.java:1:18: E38 no constructor without arguments in a.A
b/B.java:1:28: E22 a.A is not accessible
errors 2
==
-- A.java
class S { private static class N {} } class A extends S.N {}
=>
A.java:1:45: E38 no constructor without arguments in S.N
A.java:1:55: E22 S.N is not accessible
errors 2
==
-- A.java
interface I {} class A extends I {}
=>
A.java:1:32: E26 I is not a class
errors 1
==
-- A.java
class B {} class A implements B {} interface I extends B {}
=>
A.java:1:31: E27 B is not an interface
A.java:1:56: E27 B is not an interface
errors 2
==
-- A.java
final class F {} class A extends F {}
=>
A.java:1:34: E28 F is final
errors 1
==
-- A.java
class A extends String {}
=>
A.java:1:17: E28 java.lang.String is final
errors 1
==
-- A.java
interface I {} class A implements I, I {}
=>
A.java:1:38: E29 I is repeated
errors 1
";

/// Imports, and types of one name in several packages (JLS 6.4.1, 7.5).
pub(crate) const IMPORTS: &str = "\
-- A.java
import p.*; import q.*; class A { T t; }
-- p/T.java
package p; public class T {}
-- q/T.java
package q; public class T {}
=>
A.java:1:35: E21 type T is ambiguous
errors 1
==
-- A.java
import p.*; import q.*; class A {}
-- p/T.java
package p; public class T {}
-- q/T.java
package q; public class T {}
=>
ok files 3 types 3
==
-- p/A.java
package p; import q.T; class A { int f(T t) { return t.n; } }
-- p/T.java
package p; public class T {}
-- q/T.java
package q; public class T { public int n; }
=>
ok files 3 types 3
==
-- p/A.java
package p; import q.T; class A { int f(T t) { return t.n; } }
-- p/T.java
package p; public class T {}
-- q/T.java
package q; public class T { public int n; }
-- r/B.java
package r; import p.T; import q.T; class B {}
=>
r/B.java:1:31: E14 import T clashes with another import
errors 1
==
-- A.java
import p.*; import q.*; class A extends T {}
-- p/T.java
package p; public class T {}
-- q/T.java
package q; public class T {}
=>
A.java:1:41: E21 type T is ambiguous
errors 1
==
-- p/T.java
package p; public class T {}
-- q/T.java
package q; public class T { public int n; }
-- r/B.java
package r; import p.T; import q.T; class B {}
=>
r/B.java:1:31: E14 import T clashes with another import
errors 1
==
-- a/A.java
package a; public class A { public static class N {} }
-- b/B.java
package b; import a.A.N; class B extends N {}
=>
ok files 2 types 3
==
-- B.java
import a.A.*; class B extends N {}
-- a/A.java
package a; public class A { public static class N {} }
=>
ok files 2 types 3
==
-- A.java
import c.D; class A {}
=>
A.java:1:8: E12 cannot find import c.D
errors 1
==
-- A.java
import c.*; class A {}
=>
A.java:1:8: E12 cannot find import c
errors 1
==
-- A.java
import a.T; class T {}
-- a/T.java
package a; public class T {}
=>
A.java:1:8: E13 import T clashes with a type of this file
errors 1
==
-- p/A.java
package p; import p.A; class A {}
=>
ok files 1 types 1
==
-- A.java
import a.A; import a.A; class B {}
-- a/A.java
package a; public class A {}
=>
ok files 2 types 2
==
-- p/A.java
package p; import q.T; class A extends T.M {}
-- p/T.java
package p; class T {}
-- q/T.java
package q; public class T { public static class M {} }
=>
ok files 3 types 4
==
-- p/A.java
package p; class A extends T.M {}
-- p/T.java
package p; class T {}
-- q/T.java
package q; public class T { public static class M {} }
=>
p/A.java:1:28: E20 cannot find type T.M
errors 1
";

/// Types that are declared twice, that stand beside a package of their name, and modifiers (JLS 7.1, 7.6, 8.1.1, 8.5).
pub(crate) const DECLARATIONS: &str = "\
-- java/lang/String.java
package java.lang; public final class String {}
=>
java/lang/String.java:1:39: E10 duplicate type java.lang.String
errors 1
==
-- A.java
class A {} class A {}
=>
A.java:1:18: E10 duplicate type A
errors 1
==
-- A.java
class A { class B {} class B {} }
=>
A.java:1:28: E10 duplicate type A.B
errors 1
==
-- p/q.java
package p; class q {}
-- p/q/X.java
package p.q; class X {}
=>
p/q.java:1:18: E16 q is a type and a package
errors 1
==
-- A.java
class A { class A {} }
=>
A.java:1:17: E17 A has the name of an enclosing type
errors 1
==
-- A.java
private class A {}
=>
A.java:1:15: E19 modifiers of A
errors 1
==
-- A.java
final interface I {}
=>
A.java:1:17: E19 modifiers of I
errors 1
==
-- A.java
abstract final class A {}
=>
A.java:1:22: E19 modifiers of A
errors 1
==
-- A.java
class A { class I { static class S {} } }
=>
A.java:1:34: E19 modifiers of S
errors 1
";

/// Types that depend on themselves, and headers that wait for one another (JLS 8.1.4, 9.1.3).
pub(crate) const CIRCLES: &str = "\
-- A.java
class A extends A {}
=>
A.java:1:7: E25 A depends on itself
errors 1
==
-- A.java
class A extends B {} class B extends C {} class C extends A {}
=>
A.java:1:7: E25 A depends on itself
A.java:1:28: E25 B depends on itself
A.java:1:49: E25 C depends on itself
errors 3
==
-- A.java
interface I extends J {} interface J extends I {}
=>
A.java:1:11: E25 I depends on itself
A.java:1:36: E25 J depends on itself
errors 2
==
-- A.java
class A extends B.X {} class B extends A.Y {}
=>
A.java:1:17: E30 header of A waits for the header of B
A.java:1:40: E30 header of B waits for the header of A
errors 2
==
-- A.java
class A extends A.N {} class B extends A {}
=>
A.java:1:17: E30 header of A waits for the header of A
errors 1
";

/// Fields that are hidden, inherited or out of reach (JLS 6.6, 8.3).
pub(crate) const FIELDS: &str = "\
-- A.java
class S { private boolean x; } class A { int x; class I extends S { int f() { return x; } } }
=>
ok files 1 types 3
==
-- p/A.java
package p; public class A { int f; }
-- p/C.java
package p; class C extends q.B { int g() { return f; } }
-- q/B.java
package q; public class B extends p.A {}
=>
p/C.java:1:51: E40 cannot find f
errors 1
==
-- A.java
interface I { int x = 1; } interface J extends I {} class A implements I, J { int f() { return x; } }
=>
ok files 1 types 3
==
-- A.java
class S { int x; } interface I { int x = 1; } class A extends S implements I { int f() { return x; } }
=>
A.java:1:97: E43 x is ambiguous
errors 1
";

/// Methods of one name in a class and its superclass (JLS 8.4.8).
pub(crate) const METHODS: &str = "\
-- A.java
class A { void m(int a) {} } class B extends A { void m(long a) {} }
=>
A.java:1:55: E36 m: overloading is not in this profile
errors 1
==
-- A.java
class A { Object m() { return null; } } class B extends A { String m() { return null; } }
=>
ok files 1 types 2
";

/// Members, their modifiers and what they implement (JLS 8.2 to 8.8, 9.4).
pub(crate) const MEMBERS: &str = "\
-- A.java
class A { int x; int x; }
=>
A.java:1:22: E18 duplicate field x
errors 1
==
-- A.java
class A { void m() {} void m() {} }
=>
A.java:1:28: E36 m: overloading is not in this profile
errors 1
==
-- A.java
class A { A() {} A(int i) {} }
=>
A.java:1:18: E11 second constructor: overloading is not in this profile
errors 1
==
-- A.java
class A { B() {} }
=>
A.java:1:11: E42 cannot find method B
errors 1
==
-- A.java
abstract class A { abstract private void m(); }
=>
A.java:1:42: E19 modifiers of m
errors 1
==
-- A.java
class A { void m(); }
=>
A.java:1:16: E37 body of m
errors 1
==
-- A.java
class A { U x; U f(V v) { return null; } }
=>
A.java:1:11: E20 cannot find type U
A.java:1:16: E20 cannot find type U
A.java:1:20: E20 cannot find type V
errors 3
==
-- A.java
class A { class I { static int x; static final int y = 1; } }
=>
A.java:1:32: E19 modifiers of x
errors 1
==
-- A.java
class A { public private int x; }
=>
A.java:1:30: E19 modifiers of x
errors 1
==
-- A.java
interface I { private int x = 1; }
=>
A.java:1:27: E19 modifiers of x
errors 1
==
-- A.java
class A { public void m() {} }
-- B.java
class B extends A { void m() {} }
=>
B.java:1:26: E33 m has weaker access
errors 1
==
-- A.java
import p.I; class A implements I {}
-- p/I.java
package p; public interface I { int m(); }
=>
A.java:1:19: E35 must implement m
errors 1
==
-- A.java
class A { A(int i) {} }
-- B.java
class B extends A {}
=>
B.java:1:7: E38 no constructor without arguments in A
errors 1
==
-- A.java
class A extends B.I { B.I m() { return null; } }
-- B.java
class B { static class I { A m() { return null; } } }
=>
A.java:1:27: E34 m has another result type
errors 1
==
-- A.java
class A { Object m() { return null; } }
-- B.java
class B extends A { String m() { return null; } }
=>
ok files 2 types 2
==
-- A.java
class O { class I {} }
-- B.java
class B extends O.I {}
=>
B.java:1:7: E57 no enclosing instance for O.I
errors 1
";

/// Faults of tokens and of syntax, for which nothing else is told (JLS 2.3, 3.10.1).
pub(crate) const FAULTS: &str = "\
-- A.java
class A { int a = 2147483648; }
=>
A.java:1:19: E03 bad literal
errors 1
==
-- A.java
class A { int a = -2147483648; }
=>
ok files 1 types 1
==
-- A.java
class A { int f( }
=>
A.java:1:18: E02 syntax error
errors 1
==
-- A.java
class A {
=>
A.java:1:10: E02 syntax error
errors 1
==
-- A.java
class A { int = 1; }
=>
A.java:1:15: E02 syntax error
errors 1
==
-- A.java
class A { void m() { a + b; } }
=>
A.java:1:27: E02 syntax error
errors 1
==
-- A.java
class A { int a = 2147483648; }
-- B.java
class B extends C {}
=>
A.java:1:19: E03 bad literal
errors 1
";

/// A package with imports, an interface and an inner class.
pub(crate) const FOUR_FILES: &str = "\
-- app/Main.java
package app;
import shapes.*;
import shapes.util.Text;
public class Main {
  static int total(Shape[] all) {
    int sum = 0;
    for (int i = 0; i < all.length; i++) { sum += all[i].area(); }
    return sum;
  }
  static String show(Shape s) { return Text.join(\"area \", s.area()) + '\\n'; }
  public static void main(String[] args) {
    Shape[] all = { new Square(2), new Square(3) };
    String out = show(all[0]) + total(all);
  }
}
-- shapes/Shape.java
package shapes;
public interface Shape { int SIDES = 4; int area(); }
-- shapes/Square.java
package shapes;
public class Square implements Shape {
  private final int side;
  public Square(int side) { this.side = side; }
  public int area() { return new Corner().twice() / 2 * side; }
  class Corner { int twice() { return side + side; } }
  public String toString() { return \"square \" + side; }
}
-- shapes/util/Text.java
package shapes.util;
public final class Text {
  public static String join(String a, int b) { return a.concat(\"\" + b); }
}
=>
ok files 4 types 5
";

/// The tables of folders of sources.
pub(crate) const TABLES: [&str; 10] = [
    SMALL,
    HEADERS,
    IMPORTS,
    DECLARATIONS,
    CIRCLES,
    FIELDS,
    METHODS,
    MEMBERS,
    FAULTS,
    FOUR_FILES,
];
