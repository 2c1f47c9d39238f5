// Texts and what their tokens are, by hand and by a lexer in another language. `↵` stands for a line feed and `↤` for a
// carriage return. A token is told as its place and its kind, and `!` stands where a line feed comes before.
pub const WORDS: &str = r#" ⇒
accessx all ⇒ 0-7 accessx, 8-11 all
self_ self _ ⇒ 0-5 self_, 6-10 Self_, 11-12 _
a1 b ⇒ 0-2 a1, 3-4 b
A_b9 ⇒ 0-4 A_b9
_1 ⇒ 0-2 _1
access as auth break case continue contract create default destroy else emit enum event execute false ⇒ 0-6 Access, 7-9 As, 10-14 Auth, 15-20 Break, 21-25 Case, 26-34 Continue, 35-43 Contract, 44-50 Create, 51-58 Default, 59-66 Destroy, 67-71 Else, 72-76 Emit, 77-81 Enum, 82-87 Event, 88-95 Execute, 96-101 False
for fun if import in init interface let nil post pre prepare resource return self struct switch transaction true var while ⇒ 0-3 For, 4-7 Fun, 8-10 If, 11-17 Import, 18-20 In, 21-25 Init, 26-35 Interface, 36-39 Let, 40-43 Nil, 44-48 Post, 49-52 Pre, 53-60 Prepare, 61-69 Resource, 70-76 Return, 77-81 Self_, 82-88 Struct, 89-95 Switch, 96-107 Transaction, 108-112 True, 113-116 Var, 117-122 While
all account entitlement from include mapping view ⇒ 0-3 all, 4-11 account, 12-23 entitlement, 24-28 from, 29-36 include, 37-44 mapping, 45-49 view
asx? ⇒ 0-3 asx, 3-4 Question
as1? as_! ⇒ 0-3 as1, 3-4 Question, 5-8 as_, 8-9 Bang
as? ⇒ 0-3 AsOptional
as! ⇒ 0-3 AsForce
as ? ⇒ 0-2 As, 3-4 Question
as != ⇒ 0-2 As, 3-5 NotEqual
as?. ⇒ 0-3 AsOptional, 3-4 Dot
as!= ⇒ 0-3 AsForce, 3-4 Assign
as?as! ⇒ 0-3 AsOptional, 3-6 AsForce
a as?T ⇒ 0-1 a, 2-5 AsOptional, 5-6 T
if(a) ⇒ 0-2 If, 2-3 OpenParenthesis, 3-4 a, 4-5 CloseParenthesis
As ⇒ 0-2 As
aé ⇒ stop 1
éa ⇒ stop 0
a$ ⇒ stop 1"#;

pub const NUMBERS: &str = r#"0 ⇒ 0-1 0
007 ⇒ 0-3 7
1__0___0 ⇒ 0-8 100
1_a ⇒ 0-1 1, 1-3 _a
1_ ⇒ 0-1 1, 1-2 _
0_1 ⇒ 0-3 1
12a ⇒ stop 0
1e5 ⇒ stop 0
1é ⇒ stop 1
1"a" ⇒ 0-1 1, 1-4 "a"
2² ⇒ stop 1
340282366920938463463374607431768211455 ⇒ 0-39 340282366920938463463374607431768211455
340282366920938463463374607431768211456 ⇒ stop 0
3402823669209384634633746074317682114550 ⇒ stop 0
a 12a ⇒ stop 2
0b101 ⇒ 0-5 5
0b12 ⇒ 0-3 1, 3-4 2
0b1_0 ⇒ 0-5 2
0b1_ ⇒ 0-3 1, 3-4 _
0b2 ⇒ stop 0
0ba ⇒ stop 0
0b1a ⇒ stop 0
0o17 ⇒ 0-4 15
0o78 ⇒ 0-3 7, 3-4 8
0o8 ⇒ stop 0
0o7f ⇒ stop 0
0xfF_0 ⇒ 0-6 4080x
0x0001 ⇒ 0-6 1x
0x1_ ⇒ 0-3 1x, 3-4 _
0x ⇒ stop 0
0x_1 ⇒ stop 0
0x1g ⇒ stop 0
0xFFz ⇒ stop 0
0X1 ⇒ stop 0
0B1 ⇒ stop 0
0O1 ⇒ stop 0
00x1 ⇒ stop 0
0x1.5 ⇒ 0-3 1x, 3-4 Dot, 4-5 5
0b1.1 ⇒ 0-3 1, 3-4 Dot, 4-5 1
0x1e5 ⇒ 0-5 485x
0xffffffffffffffffffffffffffffffff ⇒ 0-34 340282366920938463463374607431768211455x
0x100000000000000000000000000000000 ⇒ stop 0
0o3777777777777777777777777777777777777777777 ⇒ 0-45 340282366920938463463374607431768211455
0o4000000000000000000000000000000000000000000 ⇒ stop 0
0.0 ⇒ 0-3 fixed 0
1.5 ⇒ 0-3 fixed 150000000
1.12345678 ⇒ 0-10 fixed 112345678
1.123456789 ⇒ 0-10 fixed 112345678, 10-11 9
0.0000000012 ⇒ 0-10 fixed 0, 10-12 12
1_000.5 ⇒ 0-7 fixed 100050000000
1.1_2_3_4_5_6_7_8 ⇒ 0-17 fixed 112345678
1.1_2_3_4_5_6_7_8_9 ⇒ 0-17 fixed 112345678, 17-19 _9
1.5_ ⇒ 0-3 fixed 150000000, 3-4 _
1.5a ⇒ 0-3 fixed 150000000, 3-4 a
1.5. ⇒ 0-3 fixed 150000000, 3-4 Dot
1. ⇒ 0-1 1, 1-2 Dot
1. 5 ⇒ 0-1 1, 1-2 Dot, 3-4 5
1 .5 ⇒ 0-1 1, 2-3 Dot, 3-4 5
1._5 ⇒ 0-1 1, 1-2 Dot, 2-4 _5
1.toString() ⇒ 0-1 1, 1-2 Dot, 2-10 toString, 10-11 OpenParenthesis, 11-12 CloseParenthesis
-0.5 ⇒ 0-1 Minus, 1-4 fixed 50000000
18446744073709551615.99999999 ⇒ 0-29 fixed 1844674407370955161599999999
18446744073709551616.0 ⇒ stop 0
18446744073709551616.a ⇒ 0-20 18446744073709551616, 20-21 Dot, 21-22 a
340282366920938463463374607431768211456.0 ⇒ stop 0
000018446744073709551615.0 ⇒ 0-26 fixed 1844674407370955161500000000"#;

pub const QUOTATIONS: &str = r#""" ⇒ 0-2 ""
"a" ⇒ 0-3 "a"
"a""b" ⇒ 0-3 "a", 3-6 "b"
a"b" ⇒ 0-1 a, 1-4 "b"
"é一😀" ⇒ 0-11 "é一😀"
"${a} {b}" ⇒ 0-10 "${a} {b}"
"'" ⇒ 0-3 "'"
"\0\\\t\n\r\"\'" ⇒ 0-16 "\0\\\t\n\r\"'"
"\\"a ⇒ 0-4 "\\", 4-5 a
"\u{0}\u{41}\u{e9}\u{1F600}\u{10FFFF}" ⇒ 0-38 "\0Aé😀\u{10ffff}"
"\u{000041}" ⇒ 0-12 "A"
"\u{a}b" ⇒ 0-8 "\nb"
"\u{d7ff}\u{e000}" ⇒ 0-18 "\u{d7ff}\u{e000}"
"\u{110000}" ⇒ stop 0
"\u{d800}" ⇒ stop 0
"\u{DFFF}" ⇒ stop 0
"\u{}" ⇒ stop 0
"\u{0000041}" ⇒ stop 0
"\u{4_1}" ⇒ stop 0
"\u{ 41}" ⇒ stop 0
"\u{41" ⇒ stop 0
"\u{41 ⇒ stop 0
"\u0041" ⇒ stop 0
"\u" ⇒ stop 0
"\U{41}" ⇒ stop 0
"\q" ⇒ stop 0
"\a" ⇒ stop 0
"\é" ⇒ stop 0
"\$" ⇒ stop 0
"\ ⇒ stop 0
"a ⇒ stop 0
a "b ⇒ stop 2
"a" "b ⇒ stop 4
"a↵b" ⇒ stop 0
"a\↵b" ⇒ stop 0
a # "b ⇒ stop 2
a "b # ⇒ stop 2"#;

pub const GAPS: &str = r#" ↵ a ⇒ !3-4 a
a↵b↤↵c↤d ⇒ 0-1 a, !2-3 b, !5-6 c, 7-8 d
↵ x ⇒ !2-3 x
a↵↵ + 1 ⇒ 0-1 a, !4-5 Plus, 6-7 1
// a ⇒
// ⇒
/// a↵b ⇒ !6-7 b
a // ⇒ 0-1 a
/ //b ⇒ 0-1 Slash
// a↵# ⇒ stop 5
// /*↵b ⇒ !6-7 b
/**/ ⇒
/*****/a ⇒ 7-8 a
/* / */a ⇒ 7-8 a
/*/*/**/*/*/a ⇒ 12-13 a
/* // */a ⇒ 8-9 a
/* " */a ⇒ 7-8 a
/* *// ⇒ 5-6 Slash
/* **/a ⇒ 6-7 a
a/**/b ⇒ 0-1 a, 5-6 b
</**/- ⇒ 0-1 Less, 5-6 Minus
12/**/34 ⇒ 0-2 12, 6-8 34
1/**/a ⇒ 0-1 1, 5-6 a
*/ ⇒ 0-1 Star, 1-2 Slash
/* é一😀 */a ⇒ 15-16 a
/* 一 */ $ ⇒ stop 10
/* ⇒ stop 0
/*/ ⇒ stop 0
/*/**/ ⇒ stop 0
a /* b ⇒ stop 2
a b /* x */ c /* d↵e ⇒ stop 14
/storage//x ⇒ 0-1 Slash, 1-8 storage
/storage/x ⇒ 0-1 Slash, 1-8 storage, 8-9 Slash, 9-10 x
a /*↵*/ b ⇒ 0-1 a, !8-9 b
a /* /*↵*/ */ b ⇒ 0-1 a, !14-15 b
a /*↤*/ b ⇒ 0-1 a, 8-9 b
a // b↵c ⇒ 0-1 a, !7-8 c
a // b↤ c ⇒ 0-1 a"#;

pub const SIGNS: &str =
    r#"<-<-!<-><=< ⇒ 0-2 Move, 2-5 ForceMove, 5-8 Swap, 8-10 LessOrEqual, 10-11 Less
>=> ⇒ 0-2 GreaterOrEqual, 2-3 Greater
=== ⇒ 0-2 Equal, 2-3 Assign
!=! ⇒ 0-2 NotEqual, 2-3 Bang
&&& ⇒ 0-2 And, 2-3 Ampersand
||| ⇒ 0-2 Or, 2-3 Bar
^+->- ⇒ 0-1 Caret, 1-2 Plus, 2-4 Arrow, 4-5 Minus
*% ⇒ 0-1 Star, 1-2 Percent
??? ⇒ 0-2 Coalesce, 2-3 Question
?.? ⇒ 0-2 OptionalDot, 2-3 Question
.,:; ⇒ 0-1 Dot, 1-2 Comma, 2-3 Colon, 3-4 Semicolon
()[]{}@ ⇒ 0-1 OpenParenthesis, 1-2 CloseParenthesis, 2-3 OpenBracket, 3-4 CloseBracket, 4-5 OpenBrace, 5-6 CloseBrace, 6-7 At
/ ⇒ 0-1 Slash
<-- ⇒ 0-2 Move, 2-3 Minus
<- > ⇒ 0-2 Move, 3-4 Greater
<- !a ⇒ 0-2 Move, 3-4 Bang, 4-5 a
a<-b ⇒ 0-1 a, 1-3 Move, 3-4 b
<-!= ⇒ 0-3 ForceMove, 3-4 Assign
a<->b<-c<-!d ⇒ 0-1 a, 1-4 Swap, 4-5 b, 5-7 Move, 7-8 c, 8-11 ForceMove, 11-12 d
<< ⇒ 0-1 Less, 1-2 Less
>> ⇒ 0-1 Greater, 1-2 Greater
A<B>= ⇒ 0-1 A, 1-2 Less, 2-3 B, 3-5 GreaterOrEqual
==== ⇒ 0-2 Equal, 2-4 Equal
!!= ⇒ 0-1 Bang, 1-3 NotEqual
???? ⇒ 0-2 Coalesce, 2-4 Coalesce
?.. ⇒ 0-2 OptionalDot, 2-3 Dot
--> ⇒ 0-1 Minus, 1-3 Arrow
+= ⇒ 0-1 Plus, 1-2 Assign
=> ⇒ 0-1 Assign, 1-2 Greater
a??b ⇒ 0-1 a, 1-3 Coalesce, 3-4 b
a! != b ⇒ 0-1 a, 1-2 Bang, 3-5 NotEqual, 6-7 b
a!=b ⇒ 0-1 a, 1-3 NotEqual, 3-4 b
# ⇒ stop 0
$ ⇒ stop 0
' ⇒ stop 0
` ⇒ stop 0
~ ⇒ stop 0
a # $ ⇒ stop 2
a ← b ⇒ stop 2
“a” ⇒ stop 0"#;
