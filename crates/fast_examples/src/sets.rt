//! The built-in template set, written as a string.

ghost use Rattle.std.specs.Prelude.{◌≡◌};
ghost use Rattle.fast_examples.specs.meaning.Spelled.{spelled};
ghost use Rattle.fast_examples.specs.meaning.Vectors.{vectors};

/// The set of the examples: the number of its dictionary entries; a line for each template with its name, its identifier, whether it
/// resets, and its nodes; and a line for each node with its number and its name. A field, a length, an exponent or a mantissa has its type,
/// whether it is optional, the operator, the initial value and the entry; a group has whether it is optional, and its nodes.
pub const SPELLED: &str = "13
T1 Some(1) false of 0
T2 Some(2) false of 1
T3 Some(3) false of 3
T4 Some(4) false of 4
T5 Some(5) false of 5
T6 Some(6) false of 6
T7 Some(7) false of 7 8
T8 Some(8) false of 9
T9 Some(9) true of
T10 Some(10) false of 10
T11 Some(11) false of 11
T12 Some(12) false of 12
T13 Some(13) false of 13
T14 Some(14) false of 14
T15 Some(15) false of 15 16 18
T16 Some(16) false of 21
T17 Some(17) false of 22
T18 Some(18) false of 23 24
T19 Some(19) false of 25
0 x UInt32 false None None None
1 s UInt32 false None None None of 2
2 c UInt32 false Constant Some(U(7)) None
3 t Ascii false Tail None Some(1)
4 d Ascii false Delta None Some(2)
5 n UInt32 false Increment None Some(3)
6 x UInt32 true Copy None Some(4)
7 p Int32 true Copy None Some(5) Int64 false Copy None Some(6)
8 y UInt32 false Copy None Some(7)
9 u Unicode false None None None
10 z UInt32 false Copy None Some(8)
11 w Ascii false Copy None Some(4)
12 i Int64 false None None None
13 o UInt32 true None None None
14 q Int64 true None None None
15 x UInt32 false None None None
16 g true of 17
17 b Bytes false None None None
18 legs UInt32 true None None None of 19 20
19 sym Ascii false Copy None Some(9)
20 px Int32 false Delta None Some(10)
21 v Int32 true Delta None Some(11)
22 e Unicode false Delta None Some(12)
23 a Decimal false None None None
24 b Decimal true None None None
25 r Ascii true None None None
";

/// The string has everything in the tree of the examples. A test of fast_command reads the built-in template file, and compares its set,
/// written in the same way.
pub fn spelled_set()
    ensures { spelled vectors ≡ SPELLED.now }
{}
