// Texts, and the statements that each begins with, with the number of tokens that are left; or that none begin.
// `↵` stands for a line feed, and a name stands as it is.
// What stands between statements.
pub const APART: &str = r#"
} ⇒ [] 1
break } ⇒ [Break] 1
break ; continue ; } ⇒ [Break, Continue] 1
break ↵ continue ↵ } ⇒ [Break, Continue] 1
break ; ↵ continue case ⇒ [Break, Continue] 1
a default ⇒ [Expr(Name(a))] 1
break continue } ⇒ none
break ; ; } ⇒ none
; break } ⇒ none
break ⇒ none
break ; ⇒ none
break ↵ - b } ⇒ none
- b } ⇒ none
{ } ⇒ none
"#;

// Statements with no block.
pub const SIMPLE: &str = r#"
let a = b } ⇒ [Variable { kind: Let, name: a, annotation: None, transfer: Copy, value: Name(b), second: None }] 1
var a <- b <-! c } ⇒ [Variable { kind: Var, name: a, annotation: None, transfer: Move, value: Name(b), second: Some((ForceMove, Name(c))) }] 1
let a } ⇒ none
return } ⇒ [Return(None)] 1
return a } ⇒ [Return(Some(Name(a)))] 1
return ↵ a } ⇒ [Return(None), Expr(Name(a))] 1
emit a } ⇒ [Emit(Name(a))] 1
a <- b } ⇒ [Assignment(Name(a), Move, Name(b))] 1
a <-> b } ⇒ [Swap(Name(a), Name(b))] 1
a <-> b <-> c } ⇒ none
"#;

// Statements with blocks.
pub const NESTED: &str = r#"
if let a <- b { break } } ⇒ [If { test: Binding { kind: Let, name: a, annotation: None, transfer: Move, value: Name(b) }, then: [Break], otherwise: Nothing }] 1
if a { } else if b { } else { break } ↵ c } ⇒ [If { test: Expr(Name(a)), then: [], otherwise: If(If { test: Expr(Name(b)), then: [], otherwise: Block([Break]) }) }, Expr(Name(c))] 1
while a { continue ; } } ⇒ [While(Name(a), [Continue])] 1
for i , a in b { } } ⇒ [For { index: Some(i), name: a, array: Name(b), body: [] }] 1
for a in b { } } ⇒ [For { index: None, name: a, array: Name(b), body: [] }] 1
switch a { case b : break ; case c : default : d } } ⇒ [Switch { value: Name(a), cases: [Case { value: Name(b), body: [Break] }, Case { value: Name(c), body: [] }], default: Some([Expr(Name(d))]) }] 1
switch a { } } ⇒ [Switch { value: Name(a), cases: [], default: None }] 1
switch a { default : case b : } } ⇒ none
if a { } { } } ⇒ none
"#;
