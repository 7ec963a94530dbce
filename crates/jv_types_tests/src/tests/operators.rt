//! What operators give.

use super::{OBJECT, STRING, first_word, is_row, side};
use jv_instance::Ty;
use jv_types::{Side, binary, conditional, unary};

/// The numbers of operators.
const OPERATORS: &str = "\
13 >
14 <
15 !
16 ~
20 ==
21 >=
22 <=
23 !=
24 &&
25 ||
26 ++
27 --
28 +
29 -
30 *
31 /
32 &
33 |
34 ^
35 %
36 <<
37 >>
38 >>>
153 instanceof
";

/// An operator, its operand or operands, and the type that it gives, or `none` where it takes no such operands. A question mark is the conditional
/// operator, with its two branches.
const ROWS: &str = "\
# signs and steps
+ char = int
+ boolean = none
- int = int
- string = none
~ long = long
~ int[] = none
! boolean = boolean
! int = none
++ char = char
++ boolean = none
-- long = long
-- null = none
# one operand that is void or bad
+ void = none
- void = none
~ void = none
! void = none
++ void = none
-- void = none
+ bad[][] = bad
- bad[][] = bad
~ bad[][] = bad
! bad[][] = bad
++ bad[][] = bad
-- bad[][] = bad
* int = none
# arithmetic
* int int = int
* boolean int = none
/ char char = int
/ string int = none
% int long = long
% null int = none
- long char = long
- string string = none
+ int char = int
+ boolean int = none
# a string joins all but void
+ string string = string
+ string int = string
+ int[] string = string
+ null string = string
+ boolean string = string
+ string animal = string
+ string void = none
+ void string = none
+ string[] int = none
+ null null = none
+ animal int = none
# a shift promotes its left operand alone
<< int long = int
<< boolean int = none
>> long int = long
>> int boolean = none
>>> char long = int
>>> int void = none
# comparisons
< int long = boolean
< boolean boolean = none
> char char = boolean
> string int = none
<= long char = boolean
<= int[] int[] = none
>= int int = boolean
>= null int = none
# equality of what meets
== int char = boolean
== boolean boolean = boolean
== null null = boolean
== animal null = boolean
== animal dog = boolean
!= animal named = boolean
!= int[] object = boolean
# no equality of what never meets
== boolean int = none
== int null = none
== int object = none
== animal stone = none
!= string named = none
!= int[] char[] = none
!= void null = none
!= void void = none
# bits and truth
& boolean boolean = boolean
& boolean int = none
| char char = int
| string string = none
^ int long = long
^ null boolean = none
&& boolean boolean = boolean
&& int boolean = none
|| boolean boolean = boolean
|| boolean null = none
# instances
instanceof animal dog = boolean
instanceof null animal = boolean
instanceof object int[] = boolean
instanceof int object = none
instanceof void object = none
# a bad operand beside any other
+ bad void = bad
* bad void = bad
<< bad void = bad
< bad void = bad
== bad void = bad
& bad void = bad
|| bad void = bad
instanceof bad void = bad
+ stone bad[] = bad
* stone bad[] = bad
<< stone bad[] = bad
< stone bad[] = bad
== stone bad[] = bad
& stone bad[] = bad
|| stone bad[] = bad
instanceof stone bad[] = bad
! boolean boolean = none
# a conditional of equal or numeric branches
? char char = char
? char int = int
? int long = long
? boolean boolean = boolean
? int[] int[] = int[]
? null null = null
? boolean int = none
? int[] long[] = none
? void void = none
? int void = none
# a conditional takes the wider type
? null string = string
? int[] null = int[]
? dog animal = animal
? object coin = object
? dog[] object = object
? dog[] animal[] = animal[]
? null int = none
? animal stone = none
? animal named = none
? bad int = bad
? void bad[] = bad
";

/// The number of an operator; 0, which is none, where a word is no operator.
fn number_of(word: &str) -> u8 {
    for line in OPERATORS.lines() {
        let (number, operator) = first_word(line);
        if operator == word {
            return match number.parse::<u8>() {
                Ok(number) => number,
                Err(_) => 0,
            };
        }
    }
    0
}

/// What an operator with two operands gives.
fn of_two(operator: &str, a: Side<'_>, b: Side<'_>) -> Option<Ty> {
    if operator == "?" {
        conditional(a, b, OBJECT)
    } else {
        binary(number_of(operator), a, b, STRING, OBJECT)
    }
}

/// What an operator gives with the operands of a text; nothing where a word is no type.
fn given(operator: &str, operands: &str) -> Option<Option<Ty>> {
    let (a, b) = first_word(operands);
    let a = side(a)?;
    if b.is_empty() {
        return Some(unary(number_of(operator), a.ty));
    }
    let b = side(b)?;
    Some(of_two(operator, a, b))
}

/// Whether an operator gives the type of a row.
fn is_given(line: &str) -> bool {
    let (operator, rest) = first_word(line);
    let Some((operands, wanted)) = rest.split_once(" = ") else {
        return false;
    };
    match given(operator, operands) {
        Some(ty) => ty == side(wanted).map(|it| it.ty) && (ty.is_some() || wanted == "none"),
        None => false,
    }
}

/// The first row whose type is not given.
fn wrong_row() -> Option<&'static str> {
    for line in ROWS.lines() {
        if is_row(line) && !is_given(line) {
            return Some(line);
        }
    }
    None
}

#[test]
fn operators_give_their_types(rt: HostRuntime) {
    assert_eq!(rt; wrong_row(), None);
}
